//! What the first byte of a MessagePack value announces.

ghost use Rattle.std.specs.Prelude.{◌≡◌, ◌≤◌};
ghost use Rattle.serf_message.specs.Forms.{form_of, long_form_of};

/// What a value's first byte announces, by the MessagePack specification.
#[derive(Clone, Copy)]
pub(crate) enum Form {
    /// Nil.
    Nil,
    /// A number or a truth value with this many more bytes.
    Plain(usize),
    /// Text of this length.
    Text(Count),
    /// Bytes of this length.
    Bytes(Count),
    /// A list of this many values.
    List(Count),
    /// A map of this many pairs.
    Map(Count),
    /// An extension: a byte of its kind, then bytes of this length.
    Extension(Count),
}

/// A length or a count.
#[derive(Clone, Copy)]
pub(crate) enum Count {
    /// It is this number.
    Fixed(u8),
    /// It is the next byte.
    One,
    /// It is in the next two bytes, the high byte first.
    Two,
    /// It is in the next four bytes, the high byte first.
    Four,
}

/// The form of the values that start with this byte. None start with c1.
#[tactic(auto, unfolding(crate::specs::Forms::form_of))]
pub(crate) fn form_of(first: u8) -> Option<Form>
    ensures { result ≡ form_of first }
{
    match first {
        0x00..=0x7f | 0xc2 | 0xc3 | 0xe0..=0xff => Some(Form::Plain(0)),
        0x80..=0x8f => Some(Form::Map(Count::Fixed(first - 0x80))),
        0x90..=0x9f => Some(Form::List(Count::Fixed(first - 0x90))),
        0xa0..=0xbf => Some(Form::Text(Count::Fixed(first - 0xa0))),
        0xc0 => Some(Form::Nil),
        0xc1 => None,
        _ => Some(long_form_of(first)),
    }
}

/// The form of the values that start with this byte, c4 to df.
#[tactic(auto, unfolding(crate::specs::Forms::long_form_of))]
fn long_form_of(first: u8) -> Form
    requires low { 0xc4 ≤ first }
    requires high { first ≤ 0xdf }
    ensures { result ≡ long_form_of first }
{
    match first {
        0xc4 => Form::Bytes(Count::One),
        0xc5 => Form::Bytes(Count::Two),
        0xc6 => Form::Bytes(Count::Four),
        0xc7 => Form::Extension(Count::One),
        0xc8 => Form::Extension(Count::Two),
        0xc9 => Form::Extension(Count::Four),
        0xcc | 0xd0 => Form::Plain(1),
        0xcd | 0xd1 => Form::Plain(2),
        0xca | 0xce | 0xd2 => Form::Plain(4),
        0xcb | 0xcf | 0xd3 => Form::Plain(8),
        0xd4 => Form::Extension(Count::Fixed(1)),
        0xd5 => Form::Extension(Count::Fixed(2)),
        0xd6 => Form::Extension(Count::Fixed(4)),
        0xd7 => Form::Extension(Count::Fixed(8)),
        0xd8 => Form::Extension(Count::Fixed(16)),
        0xd9 => Form::Text(Count::One),
        0xda => Form::Text(Count::Two),
        0xdb => Form::Text(Count::Four),
        0xdc => Form::List(Count::Two),
        0xdd => Form::List(Count::Four),
        0xde => Form::Map(Count::Two),
        _ => Form::Map(Count::Four),
    }
}
