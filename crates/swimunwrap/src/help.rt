//! The texts of help and version, except what `clap` generates for the commands.

/// The version of the program, and what it was proved with.
pub(crate) static VERSION: &str = "0.3.0, proved with rattle-kit-13f, logic dac8208d650f15bf";

pub(crate) static FILE: &str = "The bytes of the connection; standard input if it is - or absent";

pub(crate) static KEY_FILE: &str =
    "A file with keys of the cluster, to decrypt packets; may be given more than once";

pub(crate) static ACCEPT_CLEAR: &str =
    "With keys, also read what is not encrypted, while a cluster begins or ends to encrypt";

pub(crate) static SKIP: &str = "Leave out lines that cannot be read, and report how many";

pub(crate) static PROGRAM: &str = "\
Without a command, swimunwrap reads packets from standard input, in hexadecimal and one
on each line, and prints one line for each: the message inside, without labels, checksums
and compression, if it makes claims; an empty line if it is a ping, an indirect ping, an
ack, a nack, a user message or an error; and otherwise the line as it was. An encrypted
packet is decrypted with the keys of --key-file; without a key it stays as it was. With
keys a packet that is not encrypted becomes an empty line and is reported, since anyone can
send one; --accept-clear reads it too.

A key file has one key on each line, in base64, as consul keygen and serf keygen print
it, or is a JSON list of such keys, like serf's keyring file. Keys are tried in order.

Examples:
  swimunwrap < gossip.hex | swimtab           prints the table of a cluster's packets
  swimunwrap --skip < gossip.hex | swimtab    the same, without what cannot be read
  swimunwrap stream flow | swimtab list /dev/stdin
  swimunwrap --key-file keys < gossip.hex | swimtab

  $ echo 0cbf6a09310583a446726f6da26433ab496e6361726e6174696f6e01a44e6f6465a26433 | swimunwrap
  0583a446726f6da26433ab496e6361726e6174696f6e01a44e6f6465a26433

Exit status: 0 done, 2 bad usage or help, 3 input refused, 4 device failed,
5 out of memory";

pub(crate) static STREAM: &str = "\
A connection that carries no push/pull stream is refused: a ping, an ack, a user message,
an error, or an encrypted stream that none of the keys decrypts. With keys so is a stream
that is not encrypted, unless --accept-clear is given.

Examples:
  $ swimunwrap stream flow > stream.bin
  $ swimtab list stream.bin
  $ swimunwrap stream --key-file keys flow > stream.bin";
