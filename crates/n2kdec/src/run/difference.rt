//! What a state is of that is refused for it.
ghost use Rattle.std.specs.Prelude.{◌≡◌, IfOk, option_map};
ghost use Rattle.hex.specs.Hex.{encode_lower};
ghost use Rattle.serde_json.specs.View.{view};
ghost use Rattle.n2k_join.specs.Resumed.{parsed};
ghost use Rattle.n2kdec.specs.Run.Difference.{Differs, tables_in, windows_in};

use n2k_join::StateFault;
use n2k_run::Options;
use n2k_table::Table;
use serde_json::Value;
use std::alloc::{AllocError, Global};

/// What a state is of that is refused for it.
#[derive(Clone, Copy, Debug, PartialEq, Eq)]
pub enum StateMismatch {
    /// The SHA-256 of the table with which it was saved, as the state has it, and of the given table, in digits.
    Tables([u8; 64], [u8; 64]),
    /// The lines of the window that it was saved under, and those of the window that was asked for.
    Windows(u64, u64),
}

/// The value of a state, if it is JSON.
fn parsed(alloc: Global, state: &[u8]) -> Result<Option<Value>, AllocError>
    ensures { IfOk result (λ value. option_map (λ v. view v) value ≡ parsed state.now) }
{
    match Value::from_slice(alloc, state) {
        Ok(value) => Ok(Some(value)),
        Err(error) if error.is_memory() => Err(AllocError),
        Err(_) => Ok(None),
    }
}

/// The table that the state of this value was saved under, and the table.
fn tables_in(table: &Table, value: &Value) -> Option<StateMismatch>
    ensures { result ≡ tables_in table.now.id (view value.now) }
{
    let saved = value.get("table")?.as_str()?.as_bytes().try_into().ok()?;
    let mut id = [0; 64];
    let _ = hex::encode_to_slice(table.id(), &mut id);
    Some(StateMismatch::Tables(saved, id))
}

/// The window that the state of this value was saved under, and this one.
fn windows_in(options: &Options, value: &Value) -> Option<StateMismatch>
    ensures { result ≡ windows_in options.now.window.lines (view value.now) }
{
    let saved = value.get("window")?.as_u64()?;
    Some(StateMismatch::Windows(saved, u64::from(options.window.get())))
}

/// What a state that is refused by this fault was saved under, and what this run has. None if it is refused for another
/// cause. An error if memory to find it out is refused.
pub fn difference_of(
    alloc: Global,
    table: &Table,
    options: &Options,
    state: Option<&[u8]>,
    fault: StateFault,
) -> Result<Option<StateMismatch>, AllocError>
    ensures { Differs table.now.id options.now (option_map (λ bytes. bytes.now) state.entry) fault result }
{
    let Some(state) = state else {
        return Ok(None);
    };
    if !matches!(fault, StateFault::TableDiffers | StateFault::WindowDiffers) {
        return Ok(None);
    }
    let Some(value) = parsed(alloc, state)? else {
        return Ok(None);
    };
    match fault {
        StateFault::TableDiffers => Ok(tables_in(table, &value)),
        _ => Ok(windows_in(options, &value)),
    }
}
