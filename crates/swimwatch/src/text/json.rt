//! JSON objects, one per line.

use crate::text::endpoint::endpoint;
use crate::text::names::{escaped_name, is_mark};
use crate::text::payload::payload_text;
use crate::text::tags::tags_of;
use crate::text::texts::name_text;
use crate::text::written::Text;
use memberlist_view::{MemberName, State};
use serde_json::{Map, Value, put};
use std::alloc::{AllocError, Global};
use swim_claim::Details;

/// A list under construction. That memory was refused is told by the object to which it is added.
#[derive(Drop)]
pub(crate) struct List {
    alloc: Global,
    values: Vec<Value>,
    is_refused: bool,
}

impl List {
    pub(crate) fn new(alloc: Global) -> List {
        List {
            alloc,
            values: Vec::new(alloc),
            is_refused: false,
        }
    }

    fn push(&mut self, value: Value) {
        let added = self.values.push(value);
        self.is_refused |= added.is_err();
    }

    /// Adds a text.
    pub(crate) fn text(&mut self, text: Result<String, AllocError>) {
        match text {
            Ok(text) => self.push(Value::String(text)),
            Err(_) => self.is_refused = true,
        }
    }

    /// Adds a word.
    pub(crate) fn word(&mut self, word: &str) {
        self.text(String::from_str(self.alloc, word));
    }

    /// Adds an escaped name.
    pub(crate) fn escaped(&mut self, name: &[u8]) {
        self.text(escaped_name(self.alloc, name));
    }

    /// Adds a number.
    pub(crate) fn number(&mut self, number: u64) {
        self.push(Value::from(number));
    }

    /// Adds an object.
    pub(crate) fn object(&mut self, object: Object) {
        self.is_refused |= object.is_refused;
        self.push(Value::Object(object.members));
    }

    /// Adds a list.
    pub(crate) fn list(&mut self, list: List) {
        self.is_refused |= list.is_refused;
        self.push(Value::Array(list.values));
    }
}

/// An object under construction: its members by name. That memory was refused is told by the text to
/// which it is added.
#[derive(Drop)]
pub(crate) struct Object {
    alloc: Global,
    members: Map<String, Value>,
    is_refused: bool,
}

impl Object {
    pub(crate) fn new(alloc: Global) -> Object {
        Object {
            alloc,
            members: Map::new(alloc),
            is_refused: false,
        }
    }

    /// What its texts take memory from.
    pub(crate) fn alloc(&self) -> Global {
        self.alloc
    }

    fn put(&mut self, key: &str, value: Value) {
        let added = put(&mut self.members, self.alloc, key, value);
        self.is_refused |= added.is_err();
    }

    /// What was made for this object, unless memory for it was refused.
    pub(crate) fn made<T: Drop>(&mut self, made: Result<T, AllocError>) -> Option<T> {
        self.is_refused |= made.is_err();
        made.ok()
    }

    /// Adds a member whose value is a text.
    pub(crate) fn text(&mut self, key: &str, text: Result<String, AllocError>) {
        match text {
            Ok(text) => self.put(key, Value::String(text)),
            Err(_) => self.is_refused = true,
        }
    }

    /// Adds a member whose value is a word.
    pub(crate) fn word(&mut self, key: &str, word: &str) {
        self.text(key, String::from_str(self.alloc, word));
    }

    /// Adds a member whose value is an escaped name.
    pub(crate) fn escaped(&mut self, key: &str, name: &[u8]) {
        self.text(key, escaped_name(self.alloc, name));
    }

    /// Adds a member whose value is a number.
    pub(crate) fn number(&mut self, key: &str, number: u64) {
        self.put(key, Value::from(number));
    }

    /// Adds names as a list.
    pub(crate) fn names(&mut self, key: &str, names: &[MemberName]) {
        let mut list = List::new(self.alloc);
        for name in names {
            list.text(name_text(self.alloc, name));
        }
        self.list(key, list);
    }

    /// Adds who accuses a member, as a list, unless the member is alive or left.
    pub(crate) fn accusers(&mut self, state: &State) {
        match state {
            State::Noted | State::Seen | State::Alive | State::Left => {}
            State::Dead { by } => self.names("by", by.as_slice()),
            State::Suspect { by } => self.names("by", by.names()),
        }
    }

    /// Adds the parts of details: address, port, metadata in hexadecimal, tags if the metadata has
    /// some, and versions.
    pub(crate) fn details(&mut self, details: &Details) {
        let alloc = self.alloc;
        let address = match endpoint(details.addr(), details.port()) {
            Some(end) => format!(in alloc; "{}", end.ip()),
            None => hex::encode(alloc, details.addr()),
        };
        self.text("address", address);
        self.number("port", u64::from(details.port()));
        self.text("meta", hex::encode(alloc, details.meta()));
        self.text("vsn", hex::encode(alloc, details.vsn()));
        self.tags(details.meta());
    }

    /// Adds tags as an object. Bytes of a key or a value that are not UTF-8 become U+FFFD.
    fn tags(&mut self, meta: &[u8]) {
        let alloc = self.alloc;
        let Some(Some(tags)) = self.made(tags_of(alloc, meta)) else {
            return;
        };
        let mut object = Object::new(alloc);
        for tag in &tags {
            if let Some(key) = object.made(String::from_utf8_lossy(alloc, tag.key)) {
                object.text(&key, String::from_utf8_lossy(alloc, tag.value));
            }
        }
        self.object("tags", Some(object));
    }

    /// Adds a member whose value is an object, or null.
    pub(crate) fn object(&mut self, key: &str, object: Option<Object>) {
        match object {
            Some(object) => {
                self.is_refused |= object.is_refused;
                self.put(key, Value::Object(object.members));
            }
            None => self.put(key, Value::Null),
        }
    }

    /// Adds a member whose value is a list.
    pub(crate) fn list(&mut self, key: &str, list: List) {
        self.is_refused |= list.is_refused;
        self.put(key, Value::Array(list.values));
    }

    /// Adds a member whose value is null.
    pub(crate) fn null(&mut self, key: &str) {
        self.put(key, Value::Null);
    }

    /// Adds a member whose value is true or false.
    pub(crate) fn bool(&mut self, key: &str, value: bool) {
        self.put(key, Value::Bool(value));
    }

    /// Adds a member whose value is true.
    pub(crate) fn flag(&mut self, key: &str) {
        self.bool(key, true);
    }

    /// Adds what an event or a query carries: all of it in hexadecimal, and as text if it is text.
    pub(crate) fn payload(&mut self, payload: &[u8]) {
        self.text("payload", hex::encode(self.alloc, payload));
        if let Some(text) = payload_text(payload) {
            self.word("payload_text", text);
        }
    }

    /// Adds the object as a line. Control characters above ASCII, and marks that hide or turn text,
    /// are escaped too: they are only in texts.
    pub(crate) fn write(self, text: &mut Text) {
        let Object {
            alloc,
            members,
            is_refused,
        } = self;
        let line = Value::Object(members).to_string(alloc);
        let (Some(line), false) = (text.made(line), is_refused) else {
            return text.refuse();
        };
        for c in line.chars() {
            if c.is_control() || is_mark(c) {
                text.push_escape(c);
            } else {
                text.push(c);
            }
        }
        text.push('\n');
    }
}
