//! Which states are accepted, and why others are refused.
use crate::samples::{long_window, shortest_window, spelled, take};
use n2k_join::{Join, JoinFault, StateFault, Window};
use n2k_table::Table;
use n2k_table_tests::samples::sample;
use std::alloc::Global;
use std::process::Abort;
use std::test::Fail;

// A state after no lines, as it is saved, and in format 1. In these texts ' is a quotation mark and ID the table's id.
const EMPTY: &str =
    "{'bad':0,'broken':0,'format':2,'groups':[],'lines':0,'messages':0,'table':'ID','unknown':0,'window':10000}";

const OLD_EMPTY: &str =
    "{'bad':0,'broken':0,'format':1,'groups':[],'lines':0,'messages':0,'table':'ID','unknown':0}";

// A state of two sources, each with its first frame, in format 1.
const OLD_OPEN: &str =
    "{'bad':0,'broken':0,'format':1,'groups':[{'dst':255,'first':1,'frames':[[0,'0ba39901414243']],'pgn':130820,'seq':0,'src':5},{'dst':255,'first':2,'frames':[[0,'0ba39902585920']],'pgn':130820,'seq':1,'src':6}],'lines':2,'messages':0,'table':'ID','unknown':0}";

// `OLD_OPEN` in format 2.
const OPEN: &str =
    "{'bad':0,'broken':0,'format':2,'groups':[{'dst':255,'first':1,'frames':[[0,'0ba39901414243']],'pgn':130820,'seq':0,'src':5},{'dst':255,'first':2,'frames':[[0,'0ba39902585920']],'pgn':130820,'seq':1,'src':6}],'lines':2,'messages':0,'table':'ID','unknown':0,'window':10000}";

// A result, and the whole text that gives it.
const WHOLE: &str = "NotJson | {'bad':0
NotJson | 
Format | []
Format | {'format':3}
Shape | {'format':1}";

// The result if one part of `EMPTY` (its first occurrence) is replaced: result, part, replacement.
const OF_EMPTY: &str = "taken | ID | ID
Format | 'format':2 | 'format':0
Shape | 'format':2 | 'format':1
Shape | ,'window':10000 | 
Shape | 10000 | -1
Shape | 10000 | 18446744073709551616
WindowDiffers | 10000 | 18446744073709551615
WindowDiffers | 10000 | 32
WindowDiffers | 'unknown':0,'window':10000 | 'unknown':1,'window':10001
TableDiffers | ID','unknown':0,'window':10000 | 0000000000000000000000000000000000000000000000000000000000000000','unknown':0,'window':32
Invalid | 'unknown':0 | 'unknown':1";

// Changes to the empty state in format 1: result, part, replacement.
const OF_OLD_EMPTY: &str = "taken | ID | ID
Shape | 'format':1 | 'format':2
Shape | 'unknown':0 | 'unknown':0,'window':10000
Format | 'format':1 | 'format':1.0
Shape | 'lines':0 | 'lines':-1
Shape | 'lines':0 | 'lines':18446744073709551616
Shape | 'lines':0 | 'lines':0,'more':0
TableDiffers | ID | 0000000000000000000000000000000000000000000000000000000000000000
Invalid | 'bad':0 | 'bad':1
Invalid | 'bad':0,'broken':0,'format':1,'groups':[],'lines':0,'messages':0 | 'bad':9223372036854775808,'broken':0,'format':1,'groups':[],'lines':0,'messages':9223372036854775808
Invalid | 'broken':0 | 'broken':1
taken | 'lines':0 |  'lines' : 5, 'lines':999999999999999";

// Changes to `OLD_OPEN`: result, part, replacement.
const OF_OLD_OPEN: &str = "taken | ID | ID
Shape | ba39901414243 | ba399014142
Invalid | 'first':2 | 'first':1
Invalid | 'first':2 | 'first':3
Invalid | 130820,'seq':0 | 129026,'seq':0
Invalid | 130820,'seq':0 | 130821,'seq':0
Invalid | 'seq':1,'src':6 | 'seq':0,'src':5
Invalid | 'seq':1 | 'seq':8
Invalid | 0ba39901 | 06a39901
Invalid | 0ba39901 | e0a39901
Invalid | [[0,'0ba39901414243']] | []
Invalid | [[0,'0ba39901414243']] | [[32,'0ba39901414243']]
taken | [[0,'0ba39901414243']] | [[3,'0ba39901414243']]
taken | 0ba39901 | 0BA39901
Invalid | 'broken':0 | 'broken':1
taken | 'lines':2 | 'lines':50";

// Changes to `OPEN` with a window of 32 lines: result, part, replacement.
const OF_OPEN: &str = "taken | ID | ID
taken | 0ba39901 | 0BA39901
taken | 'seq':0 | 'seq': 0
NotJson | 'src':5 | 'src':05
NotJson | 'src':5 | 'src':
NotJson | 'window':32} | 'window':32}}
Shape | ba39901414243 | ba399014142
Invalid | 'seq':1,'src':6 | 'seq':0,'src':5
Invalid | 'first':2 | 'first':1
taken | 'lines':2 | 'lines':32
Invalid | 'lines':2 | 'lines':33
Invalid | 'lines':2 | 'lines':50
WindowDiffers | 'lines':2,'messages':0,'table':'ID','unknown':0,'window':32 | 'lines':50,'messages':0,'table':'ID','unknown':0,'window':33";

// The result of reading a state: `taken`, or the fault.
fn answer(alloc: Global, table: &Table, window: Window, state: &str) -> Result<String, Fail> {
    let text = spelled(alloc, state)?;
    match Join::resume(alloc, table, window, text.as_bytes()) {
        Ok(_) => Ok(String::from_str(alloc, "taken")?),
        Err(fault) => Ok(format!(in alloc; "{fault:?}")?),
    }
}

fn replaced(alloc: Global, state: &str, change: &str) -> Result<String, Fail> {
    let (old, new) = change.split_once(" | ").ok_or("a replacement")?;
    let (prefix, back) = state.split_once(old).ok_or("a part of the state")?;
    Ok(format!(in alloc; "{prefix}{new}{back}")?)
}

fn answers<R: Abort + AllocGlobal>(
    rt: &R,
    table: &Table,
    window: Window,
    state: &str,
    wanted: &str,
) -> Result<(), Fail> {
    let told = answer(rt.alloc(), table, window, state)?;
    assert_eq!(rt; told.as_str(), wanted, "{state}");
    Ok(())
}

fn changed<R: Abort + AllocGlobal>(
    rt: &R,
    table: &Table,
    window: Window,
    state: &str,
    case: &str,
) -> Result<(), Fail> {
    let (wanted, change) = case.split_once(" | ").ok_or("an answer")?;
    let changed = replaced(rt.alloc(), state, change)?;
    answers(rt, table, window, &changed, wanted)
}

// Replaces one part of a state for each case, and compares the result with the case's.
fn one_change_each<R: Abort + AllocGlobal>(
    rt: &R,
    table: &Table,
    window: Window,
    state: &str,
    cases: &str,
) -> Result<(), Fail> {
    for case in cases.lines() {
        changed(rt, table, window, state, case)?;
    }
    Ok(())
}

#[test]
fn states_judged(rt: HostRuntime) -> Result<(), Fail> {
    let table = sample(rt.alloc())?;
    for case in WHOLE.lines() {
        let (wanted, state) = case.split_once(" | ").ok_or("an answer")?;
        answers(&rt, &table, long_window(), state, wanted)?;
    }
    one_change_each(&rt, &table, long_window(), EMPTY, OF_EMPTY)?;
    one_change_each(&rt, &table, long_window(), OLD_EMPTY, OF_OLD_EMPTY)?;
    one_change_each(&rt, &table, long_window(), OLD_OPEN, OF_OLD_OPEN)?;
    let open = OPEN.replace(rt.alloc(), "10000", "32")?;
    one_change_each(&rt, &table, shortest_window(), &open, OF_OPEN)
}

// A state contains its window, and can be resumed only with the same window.
#[test]
fn the_usual_window_under_the_shortest(rt: HostRuntime) -> Result<(), Fail> {
    let table = sample(rt.alloc())?;
    answers(&rt, &table, shortest_window(), EMPTY, "WindowDiffers")
}

fn saves<R: Abort + AllocGlobal>(rt: &R, join: &Join, state: &str) -> Result<(), Fail> {
    let wanted = spelled(rt.alloc(), state)?;
    let saved = join.save(rt.alloc())?;
    assert_eq!(rt; saved.as_slice(), wanted.as_bytes());
    Ok(())
}

fn resumed(alloc: Global, table: &Table, window: Window, state: &str) -> Result<Join, Fail> {
    let text = spelled(alloc, state)?;
    Ok(Join::resume(alloc, table, window, text.as_bytes())?)
}

#[test]
fn two_lines_saved(rt: HostRuntime) -> Result<(), Fail> {
    let table = sample(rt.alloc())?;
    let mut join = Join::new(rt.alloc(), &table, long_window());
    saves(&rt, &join, EMPTY)?;
    take(&mut join, &table, "(10.0) can0 1DFF0405#000BA39901414243")?;
    take(&mut join, &table, "(10.1) can0 1DFF0406#200BA39902585920")?;
    saves(&rt, &join, OPEN)
}

#[test]
fn two_lines_resumed(rt: HostRuntime) -> Result<(), Fail> {
    let table = sample(rt.alloc())?;
    let mut join = resumed(rt.alloc(), &table, long_window(), OPEN)?;
    let line = "(10.2) can0 1DFF0406#212020202020FFFF";
    let step = take(&mut join, &table, line)?;
    assert!(rt; step.message.is_some());
    let counts = join.counts();
    assert_eq!(rt; (counts.lines, counts.messages, counts.held), (3, 1, 1));
    Ok(())
}

// The state after 51 lines and two broken groups, under the shortest window.
const AFTER_OVERDUE: &str =
    "{'bad':0,'broken':2,'format':2,'groups':[],'lines':51,'messages':0,'table':'ID','unknown':0,'window':32}";

// A state of format 1 whose groups have waited too long: it is saved as it was read, and the next line ends both
// groups.
#[test]
fn overdue_groups_of_an_old_state(rt: HostRuntime) -> Result<(), Fail> {
    let table = sample(rt.alloc())?;
    let late = OLD_OPEN.replace(rt.alloc(), "'lines':2", "'lines':50")?;
    let mut join = resumed(rt.alloc(), &table, shortest_window(), &late)?;
    saves(&rt, &join, &late)?;
    take(&mut join, &table, "")?;
    saves(&rt, &join, AFTER_OVERDUE)
}

const FULL: &str =
    "{'bad':0,'broken':0,'format':2,'groups':[],'lines':999999999999999,'messages':0,'table':'ID','unknown':0,'window':10000}";

#[test]
fn the_limit_of_lines(rt: HostRuntime) -> Result<(), Fail> {
    let table = sample(rt.alloc())?;
    let mut join = resumed(rt.alloc(), &table, long_window(), FULL)?;
    let refused = take(&mut join, &table, "");
    assert!(rt; matches!(refused, Err(JoinFault::TooManyLines)));
    Ok(())
}

// A state that is cut short is not valid JSON.
#[test]
fn states_cut_short(rt: HostRuntime) -> Result<(), Fail> {
    let table = sample(rt.alloc())?;
    let text = spelled(rt.alloc(), OLD_OPEN)?;
    for end in 0..text.len() {
        let prefix = text.as_bytes().get(..end).ok_or("a front")?;
        let cut = Join::resume(rt.alloc(), &table, long_window(), prefix);
        assert!(rt; matches!(cut, Err(StateFault::NotJson)), "{end}");
    }
    Ok(())
}

// A changed digit is never reported as refused memory.
fn digit_changes<R: Abort + AllocGlobal>(
    rt: &R,
    table: &Table,
    text: &[u8],
    at: usize,
) -> Result<(), Fail> {
    let mut changed = text.to_vec(rt.alloc())?;
    *changed.get_mut(at).ok_or("a byte")? = b'9';
    let taken = Join::resume(rt.alloc(), table, long_window(), &changed);
    assert!(rt; !matches!(taken, Err(StateFault::Memory)), "{at}");
    Ok(())
}

#[test]
fn states_with_a_changed_digit(rt: HostRuntime) -> Result<(), Fail> {
    let table = sample(rt.alloc())?;
    let text = spelled(rt.alloc(), OLD_OPEN)?;
    for (at, byte) in text.as_bytes().iter().enumerate() {
        if byte.is_ascii_digit() {
            digit_changes(&rt, &table, text.as_bytes(), at)?;
        }
    }
    Ok(())
}
