//! The report of a refused line.
ghost use Rattle.std.specs.Prelude.{◌≡◌, ◌++◌, OnOk};
ghost use Rattle.n2k_table.specs.Text.{text_json};
ghost use Rattle.n2k_encode.specs.Refusal.{cause};
ghost use Rattle.n2k_encode_run.specs.Outcomes.{cause_text, name_text, refused_text};

use n2k_encode::Refusal;
use serde_json::Value;
use std::alloc::{AllocError, Global};

/// A cause's number and word.
fn cause_text(refusal: Refusal<'_>) -> &'static [u8]
    ensures { result.now ≡ cause_text (cause refusal.entry) }
{
    match refusal {
        Refusal::Long => b"B1 long",
        Refusal::Json => b"B13 json",
        Refusal::Member => b"B14 member",
        Refusal::Unknown => b"B8 unknown",
        Refusal::Address => b"B12 address",
        Refusal::Description => b"B15 description",
        Refusal::Field(_) => b"B16 field",
        Refusal::Value(_) => b"B17 value",
        Refusal::Size => b"B9 size",
        Refusal::Data(_) => b"B18 data",
    }
}

/// Appends a text as JSON.
#[tactic(auto, unfolding(n2k_table::specs::Text::text_json))]
fn push_json(alloc: Global, text: &str, out: &mut Vec<u8>) -> Result<(), AllocError>
    ensures { OnOk result (out.new.items ≡ out.old.items ++ text_json text.now) }
{
    let json = Value::String(String::from_str(alloc, text)?).to_vec(alloc)?;
    out.extend_from_slice(&json)
}

/// Appends the name of the field after a space, if the refusal has one.
#[tactic(auto, using(std::proofs::Common::append_assoc))]
fn push_name(alloc: Global, refusal: Refusal<'_>, out: &mut Vec<u8>) -> Result<(), AllocError>
    ensures { OnOk result (out.new.items ≡ out.old.items ++ name_text (cause refusal.entry)) }
{
    match refusal {
        Refusal::Field(name) | Refusal::Value(name) | Refusal::Data(name) => {
            out.push(b' ')?;
            push_json(alloc, name, out)
        }
        _ => Ok(()),
    }
}

/// Appends the report of a refused line, `line 3 bad B17 value "Depth"` with an LF.
#[tactic(auto, using(std::proofs::Common::append_assoc), unfolding(crate::specs::Outcomes::refused_text))]
pub(crate) fn refused_text(
    alloc: Global,
    number: u64,
    refusal: Refusal<'_>,
    out: &mut Vec<u8>,
) -> Result<(), AllocError>
    ensures { OnOk result (out.new.items ≡ out.old.items ++ refused_text number (cause refusal.entry)) }
{
    let mut buffer = itoa::Buffer::new();
    out.extend_from_slice(b"line ")?;
    out.extend_from_slice(buffer.format(number).as_bytes())?;
    out.extend_from_slice(b" bad ")?;
    out.extend_from_slice(cause_text(refusal))?;
    push_name(alloc, refusal, out)?;
    out.extend_from_slice(b"\n")
}
