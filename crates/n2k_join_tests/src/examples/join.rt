//! Examples of `n2k_join`.
use super::message_in;
use crate::samples::spelled;
use n2k_join::{Counts, Join, Splitter, StateFault, Stream, Window, message_of};
use n2k_table_tests::samples::sample as sample_table;
use n2k_wire::{BadCause, Packing, read_line, split_id};
use std::alloc::Global;
use std::test::Fail;

// front page
#[test]
fn front_page(rt: HostRuntime) -> Result<(), Fail> {
    let alloc = rt.alloc();
    let table = sample_table(alloc)?;
    let mut join = Join::new(alloc, &table, Window::new(10_000).unwrap());
    let first = "(11.0) can0 1DFF0405#4120202020202020";
    let second = "(12.0) can0 1DFF0405#400DA39903444546";
    assert_eq!(rt; join.expire(), None);
    let step = join.line(&table, read_line(first.as_bytes(), Packing::Frames))?;
    assert!(rt; step.message.is_none());
    assert_eq!(rt; join.expire(), None);
    let step = join.line(&table, read_line(second.as_bytes(), Packing::Frames))?;
    let message = step.message.ok_or("a message")?;
    assert_eq!(rt; message.data().len(), 13);
    Ok(())
}

// Window::new, Window::get, Window::in_order, Window::is_in_order
#[test]
fn windows(rt: HostRuntime) {
    let window = Window::new(10_000).unwrap();
    assert_eq!(rt; window.get(), 10_000);
    assert_eq!(rt; Window::new(31), None);

    let window = Window::new(10_000).unwrap();
    assert!(rt; !window.is_in_order());
    assert!(rt; window.in_order().is_in_order());
}

// Join::new, Join::counts, Join::window
#[test]
fn new_joins(rt: HostRuntime) -> Result<(), Fail> {
    let alloc = rt.alloc();
    let table = sample_table(alloc)?;
    let join = Join::new(alloc, &table, Window::new(10_000).unwrap());
    assert_eq!(rt; join.window().get(), 10_000);
    assert_eq!(rt; join.counts(), Counts::NONE);
    Ok(())
}

// A state of the sample table after 50 lines: two groups have been open since lines 1 and 2.
fn open_since_1_and_2(alloc: Global) -> Result<String, Fail> {
    spelled(
        alloc,
        "{'bad':0,'broken':0,'format':1,'groups':[{'dst':255,'first':1,'frames':[[0,'0ba39901414243']],'pgn':130820,'seq':0,'src':5},{'dst':255,'first':2,'frames':[[0,'0ba39902585920']],'pgn':130820,'seq':1,'src':6}],'lines':50,'messages':0,'table':'ID','unknown':0}",
    )
}

// Join::expire
#[test]
fn groups_that_expire(rt: HostRuntime) -> Result<(), Fail> {
    let alloc = rt.alloc();
    let table = sample_table(alloc)?;
    // 50 lines were taken, and two groups are open.
    let state = open_since_1_and_2(alloc)?;
    let mut join = Join::resume(alloc, &table, Window::new(32).unwrap(), state.as_bytes())?;
    let mut opened = Vec::new(alloc);
    while let Some(group) = join.expire() {
        opened.push(group.first)?;
    }
    assert_eq!(rt; opened.as_slice(), [1, 2].as_slice());
    Ok(())
}

// Join::line
#[test]
fn lines_taken(rt: HostRuntime) -> Result<(), Fail> {
    let alloc = rt.alloc();
    let table = sample_table(alloc)?;
    let mut join = Join::new(alloc, &table, Window::new(10_000).unwrap());
    assert_eq!(rt; join.expire(), None);
    let entry = read_line("(10.3) can0 1DFF0405#".as_bytes(), Packing::Frames);
    let step = join.line(&table, entry)?;
    assert_eq!(rt; step.bad, Some(BadCause::Fast));
    assert_eq!(rt; join.counts().bad, 1);
    Ok(())
}

// Join::accept_in_place, message_of
#[test]
fn messages_in_place(rt: HostRuntime) -> Result<(), Fail> {
    let alloc = rt.alloc();
    let table = sample_table(alloc)?;
    let mut join = Join::new(alloc, &table, Window::new(10_000).unwrap());
    assert_eq!(rt; join.expire(), None);
    let mut entry = read_line("(1.0) can0 09F8027F#0500".as_bytes(), Packing::Frames);
    let step = join.accept_in_place(&table, &mut entry)?;
    assert_eq!(rt; step.line, 1);
    let message = message_of(step.message, &entry).ok_or("a message")?;
    assert_eq!(rt; message.packet.id().pgn, 129026);
    Ok(())
}

// Join::save
#[test]
fn states_saved(rt: HostRuntime) -> Result<(), Fail> {
    let alloc = rt.alloc();
    let table = sample_table(alloc)?;
    let join = Join::new(alloc, &table, Window::new(10_000).unwrap());
    let state = join.save(alloc)?;
    let prefix = "{\"bad\":0,\"broken\":0,\"format\":2,\"groups\":[],\"lines\":0,\"messages\":0,";
    assert!(rt; state.starts_with(prefix.as_bytes()));
    Ok(())
}

// Join::resume
#[test]
fn states_read(rt: HostRuntime) -> Result<(), Fail> {
    let alloc = rt.alloc();
    let table = sample_table(alloc)?;
    let join = Join::new(alloc, &table, Window::new(10_000).unwrap());
    let state = join.save(alloc)?;
    let again = Join::resume(alloc, &table, join.window(), &state)?;
    assert_eq!(rt; again.counts(), join.counts());
    let refused = Join::resume(alloc, &table, Window::new(32).unwrap(), &state);
    assert!(rt; matches!(refused, Err(StateFault::WindowDiffers)));
    Ok(())
}

// Stream::of
#[test]
fn streams(rt: HostRuntime) {
    let stream = Stream::of(split_id(0x1DFF_0405));
    assert_eq!(rt; (stream.src, stream.pgn, stream.dst), (5, 130820, 255));
}

// Frames::data, Splitter::split, Frames::count
#[test]
fn frames(rt: HostRuntime) -> Result<(), Fail> {
    let alloc = rt.alloc();
    let table = sample_table(alloc)?;
    let line = "1970-01-01T00:00:10.300Z,7,130820,5,255,11,a3,99,01,41,42,43,00,00,00,00,00";
    let message = message_in(line)?;
    let mut splitter = Splitter::new(alloc);
    let frames = splitter.split(&table, &message)?;
    assert_eq!(rt; frames.count(), 2);
    let mut room = [0; 8];
    let last = frames.data(1, &mut room);
    assert_eq!(rt; last, [1, 0, 0, 0, 0, 0, 0xff, 0xff].as_slice());
    Ok(())
}

// Splitter::message, Splitter::new
#[test]
fn frames_in_a_vector(rt: HostRuntime) -> Result<(), Fail> {
    let alloc = rt.alloc();
    let table = sample_table(alloc)?;
    let line = "1970-01-01T00:00:10.300Z,7,130820,5,255,11,a3,99,01,41,42,43,00,00,00,00,00";
    let message = message_in(line)?;
    let mut packets = Vec::new(alloc);
    let mut splitter = Splitter::new(alloc);
    assert_eq!(rt; splitter.message(&table, &message, &mut packets), Ok(2));
    assert_eq!(rt; packets.len(), 2);
    let first = [0, 11, 0xa3, 0x99, 1, 0x41, 0x42, 0x43];
    assert_eq!(rt; packets[0].data(), first.as_slice());
    Ok(())
}
