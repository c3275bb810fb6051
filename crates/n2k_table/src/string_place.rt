//! Strings, which contain their own length, and the places after them.
ghost use Rattle.std.specs.Prelude.{◌≡◌, ◌≤◌, ◌+◌, ◌/◌, drop, option_map};
ghost use Rattle.n2k_table.specs.Strings.{taken, after_string, data_after};
ghost use Rattle.n2k_table.specs.Tree.{message_bits};
ghost use Rattle.n2k_table.specs.Inner.Kept.{bytes_needed};

/// How a string says how long it is.
#[derive(Clone, Copy)]
pub enum Form {
    /// By a byte that counts itself, one that names the encoding, and the characters.
    Lau,
    /// By a byte that counts the characters alone.
    Lz,
}

/// A string before other fields: its first bit, from where its own place counts, and its form.
#[derive(Clone, Copy)]
pub(crate) struct Step {
    pub(crate) at: u32,
    pub(crate) form: Form,
}

/// How many of the bytes are a string that begins with the first of them, its length; none if it is not proper.
fn taken(form: Form, bytes: &[u8]) -> Option<usize>
    ensures { result ≡ taken form bytes.now }
{
    let length = usize::from(*bytes.first()?);
    let all = match form {
        Form::Lau if length < 2 => return None,
        Form::Lau => length,
        Form::Lz => 1 + length,
    };
    if all <= bytes.len() { Some(all) } else { None }
}

/// The bytes after a string that begins with the first of them, if it has an end.
fn after_string(form: Form, bytes: &[u8]) -> Option<&[u8]>
    ensures { option_map (λ rest. rest.now) result ≡ after_string form bytes.now }
{
    let taken = taken(form, bytes)?;
    bytes.get(taken..)
}

/// The bytes from that of a bit on.
fn from_bit(bytes: &[u8], at: u32) -> &[u8]
    ensures { result.now ≡ drop (at / 8) bytes.now }
{
    bytes.get(at as usize / 8..).unwrap_or(&[])
}

/// How many bytes a string has that begins with the byte of that bit; none if it is not proper.
pub(crate) fn taken_at(form: Form, bytes: &[u8], at: u32) -> Option<usize>
    ensures { result ≡ taken form (drop (at / 8) bytes.now) }
{
    taken(form, from_bit(bytes, at))
}

/// The data from where a field's place counts: after the strings before it, if each of these has an end.
pub(crate) fn data_after<'a>(steps: &[Step], data: &'a [u8]) -> Option<&'a [u8]>
    ensures { option_map (λ rest. rest.now) result ≡ data_after steps.now «data».now }
{
    let mut rest = data;
    for step in steps {
        rest = after_string(step.form, from_bit(rest, step.at))?;
    }
    Some(rest)
}

/// How many bytes the data must have for a field to lie inside them. If a string precedes the field, that is more than
/// any have.
pub(crate) fn bytes_needed(after: &[Step], at: u32, bits: u32) -> usize
    requires { at + bits ≤ message_bits }
    ensures { result ≡ bytes_needed after.now at bits }
{
    if after.is_empty() {
        (at + bits + 7) as usize / 8
    } else {
        usize::MAX
    }
}
