//! The two forms of a dump.

ghost use Rattle.std.specs.Prelude.{◌≡◌, ◌≤◌, ◌↔◌, ◌++◌, drop, length, Err, IfOk, IfErr, IsErr};
ghost use Rattle.swim_c.specs.Forms.{Allows, bytes_in, wanted, HasTooManyIn, IsWanted, IsUnwanted};

use crate::status::{BAD_FORM, USER_TOO_LONG};
use std::alloc::Global;
use swim_table::{
    EncodeFault, Table, dump_len, encode, encode_into, encode_memberlist, encode_memberlist_into,
    memberlist_dump_len,
};
use swim_wire::MAX_USER_STATE_LEN;

/// A form of a table's dump.
#[derive(Clone, Copy)]
pub enum Form {
    /// The canonical dump of all that the table keeps.
    Canonical,
    /// The dump that memberlist merges.
    Memberlist,
}

impl Form {
    /// The form with this number, for a dump with this user state.
    ///
    /// # Errors
    ///
    /// A status: 70 if no form has this number, or if it is the canonical form, which has no user
    /// state, and there is some; 21 if there is too much of it.
    pub fn of(number: u32, user: &[u8]) -> Result<Form, u32>
        ensures ok { IfOk result (λ form. IsWanted number user.now (wanted form user.now)) }
        ensures err { IfErr result (IsUnwanted number user.now) }
    {
        match number {
            0 if user.is_empty() => Ok(Form::Canonical),
            1 if user.len() as u64 <= MAX_USER_STATE_LEN => Ok(Form::Memberlist),
            1 => Err(USER_TOO_LONG),
            _ => Err(BAD_FORM),
        }
    }

    /// The length of the table's dump in this form, with this user state. It takes no memory.
    pub fn dump_len(self, table: &Table, join: bool, user: &[u8]) -> Result<usize, EncodeFault>
        requires { Allows self user.now }
        ensures len { IfOk result
            (λ len. len ≡ length (bytes_in (wanted self user.now) table.now join)) }
        ensures too_many { IsErr result ↔ HasTooManyIn (wanted self user.now) table.now }
        ensures no_memory { IfErr result (λ fault. fault ≡ EncodeFault.TooManyRecords) }
    {
        match self {
            Form::Canonical => dump_len(table, join),
            Form::Memberlist => memberlist_dump_len(table, join, user),
        }
    }

    /// The table's dump in this form, with this user state.
    ///
    /// # Errors
    ///
    /// - `TooManyRecords` if it has more than 131,072 records. This is checked first.
    /// - `Memory` if out of memory for the bytes.
    pub fn dump(
        self,
        alloc: Global,
        table: &Table,
        join: bool,
        user: &[u8],
    ) -> Result<Vec<u8>, EncodeFault>
        requires { Allows self user.now }
        ensures bytes { IfOk result
            (λ bytes. bytes.items ≡ bytes_in (wanted self user.now) table.now join) }
        ensures too_many { (result ≡ Err EncodeFault.TooManyRecords)
            ↔ HasTooManyIn (wanted self user.now) table.now }
    {
        match self {
            Form::Canonical => encode(alloc, table, join),
            Form::Memberlist => encode_memberlist(alloc, table, join, user),
        }
    }

    /// Writes the table's dump in this form, with this user state, which has this length, to the
    /// start of the buffer. It takes no memory.
    pub fn dump_front(self, table: &Table, join: bool, user: &[u8], len: usize, out: &mut [u8])
        requires user { Allows self user.now }
        requires few { ¬ HasTooManyIn (wanted self user.now) table.now }
        requires len { len ≡ length (bytes_in (wanted self user.now) table.now join) }
        requires room { len ≤ length out.old }
        ensures { out.new ≡ bytes_in (wanted self user.now) table.now join ++ drop len out.old }
    {
        let (front, _) = out.split_at_mut(len);
        match self {
            Form::Canonical => encode_into(table, join, front),
            Form::Memberlist => encode_memberlist_into(table, join, user, front),
        }
    }
}
