//! The texts of the help and the version, except for those that `clap` makes of the commands.

/// The version of the program, and the tools that proved it.
pub(crate) static VERSION: &str = "0.3.0, proved with rattle-kit-13f, logic dac8208d650f15bf";

pub(crate) static FILE: &str = "A file with one push/pull stream of memberlist";

pub(crate) static PROGRAM: &str = "\
Without a command, swimtab reads packets from standard input, in hexadecimal and one on
each line, and prints the resulting table: name, state, incarnation and newest address
of each member.

Examples:
  swimtab < packets.hex          prints the table of the packets
  swimtab list a.bin b.bin       prints the merged table of two push/pull streams
  swimtab merge a.bin b.bin > c  writes that table as one stream
  swimtab relate a.bin b.bin     prints equal, behind, ahead or apart
  swimtab loop a.bin b.bin       exchanges both over a socket, and prints the first
  swimtab run < incident.script  replays a script, and prints each node's table

  $ echo 0383a446726f6da178ab496e6361726e6174696f6e01a44e6f6465a162 | swimtab
  b suspect 1 -

Exit status: 0 done, 1 not equal, 2 bad usage or help, 3 input refused, 4 device failed,
5 out of memory";

pub(crate) static LIST: &str = "\
The order of the files makes no difference, and neither does a file given twice.

Example:
  $ swimtab list examples/three.bin
  l1 alive 1 1/7f000401/43227//010502000000
  l2 alive 1 1/7f000402/45729//010502000000
  l3 alive 1 1/7f000403/33603//010502000000";

pub(crate) static MERGE: &str = "\
The stream does not have the join flag. It is for swimtab: a live memberlist refuses all
of it if it has a member that is suspected, dead or gone.

Example:
  $ swimtab merge examples/three.bin examples/user-state.bin > both.bin
  $ swimtab list both.bin | wc -l
  6";

pub(crate) static RELATE: &str = "\
A is behind B if B knows all that A knows, and more; ahead is the opposite. The exit
status is 1 if the tables are not equal.

Example:
  $ swimtab relate examples/three.bin examples/user-state.bin
  apart";

pub(crate) static LOOP: &str = "\
A sends its table over a connection of 127.0.0.1, B answers with its own, and A takes in
the answer. Each table may have at most 16,384 bytes as the stream that merge writes. The
exit status is 1 if the tables are not equal at the end.

Example:
  $ swimtab loop examples/three.bin examples/user-state.bin | cut -d ' ' -f 1-3
  l1 alive 1
  l2 alive 1
  l3 alive 1
  u1 alive 1
  u2 alive 1
  u3 alive 1";

pub(crate) static RUN: &str = "\
A line of a script is one of:
  node NAME ADDR PORT META VSN INC   a node, numbered from 0; these lines come first
  hear K HEX                         node K takes in a packet or compound packet
  exchange J K                       nodes J and K exchange their tables
  half J K                           the same, but J never gets the answer
  refute K                           node K refutes what is claimed about it
  level                              all nodes learn what any of them knows; the last line

Example:
  $ swimtab run < examples/lost-reply.script
  node 0
  a alive 0 0/7f000001/7946//
  node 1
  a alive 0 0/7f000001/7946//
  b alive 0 0/7f000002/7946//";
