//! The jobs.

use crate::described::described;
use crate::digest::Digest;
use crate::input::Input;
use crate::replay::{Replay, first_random, next_random};
use crate::scattered::Scattered;
use crate::tables::{many_names, many_pgns, with_letters};
use anyhow::{Result, anyhow};
use n2k_join::{Counts, Window};
use n2k_run::{Options, Part, Source, run_frames, run_part, run_plain};
use n2k_table::{Kind, LineBuffer, Table, decimal_text, json_line, json_line_in};
use n2k_wire::{Packing, is_interface};
use std::alloc::Global;
use std::str;

/// How many seconds the lines of the bus cover.
const SECONDS: u64 = 20;

/// On a lossy bus one line in this many is lost.
const LOST: u64 = 10;

/// Prints a job's counts, and the digests of its text and its reports.
fn tell(rt: &impl Print, job: &str, counts: Counts, texts: Digest, reports: Digest) -> Result<()> {
    let Counts {
        lines,
        messages,
        bad,
        unknown,
        broken,
        held,
    } = counts;
    let (text_bytes, text_sum) = texts.finish();
    let (report_bytes, report_sum) = reports.finish();
    println!(rt;
        "{job}: lines {lines} messages {messages} bad {bad} unknown {unknown} broken {broken} held {held}"
    )?;
    println!(rt;
        "{job}: {text_bytes} bytes of texts {text_sum:x}, {report_bytes} bytes of reports {report_sum:x}"
    )?;
    Ok(())
}

fn options_of(in_order: bool) -> Result<Options> {
    let window = Window::new(10_000).ok_or_else(|| anyhow!("no window"))?;
    Ok(Options {
        packing: Packing::Frames,
        empty: false,
        window: if in_order { window.in_order() } else { window },
    })
}

/// Decodes a recording as one log.
fn decode(
    rt: &impl Print,
    alloc: Global,
    job: &str,
    table: &Table,
    options: Options,
    log: &mut impl Source,
) -> Result<()> {
    let mut texts = Digest::new(alloc);
    let mut reports = Digest::new(alloc);
    let part = run_part(alloc, table, None, options, log, &mut texts, &mut reports)?;
    push(&mut texts, &part.state)?;
    tell(rt, job, part.counts, texts, reports)
}

fn push(digest: &mut Digest, bytes: &[u8]) -> Result<()> {
    digest.push(bytes).map_err(|_| anyhow!("out of memory"))
}

/// Decodes `rounds` rounds of the bus in order, with all its frames.
fn day(rt: &impl Print, alloc: Global, input: &Input, rounds: u64, seed: u64) -> Result<()> {
    let table = Table::read(alloc, input.table().as_bytes())?;
    let mut log = Replay::new(alloc, input.bus(), SECONDS, 0, seed)?;
    log.go_on(rounds);
    decode(rt, alloc, "day", &table, options_of(true)?, &mut log)
}

/// Decodes `rounds` rounds of a bus that loses a tenth of its frames.
fn lossy(rt: &impl Print, alloc: Global, input: &Input, rounds: u64, seed: u64) -> Result<()> {
    let table = Table::read(alloc, input.table().as_bytes())?;
    let mut log = Replay::new(alloc, input.bus(), SECONDS, LOST, seed)?;
    log.go_on(rounds);
    decode(rt, alloc, "lossy", &table, options_of(false)?, &mut log)
}

/// Decodes `rounds` rounds of frames that each open a group.
fn open(rt: &impl Print, alloc: Global, input: &Input, rounds: u64, seed: u64) -> Result<()> {
    let table = Table::read(alloc, input.table().as_bytes())?;
    let mut log = Replay::new(alloc, input.open(), SECONDS, 0, seed)?;
    log.go_on(rounds);
    decode(rt, alloc, "open", &table, options_of(false)?, &mut log)
}

/// Decodes `rounds` rounds of frames in random order. Half of the groups stay open and get one or two frames each; each
/// of the others gets a complete message.
fn scattered(rt: &impl Print, alloc: Global, input: &Input, rounds: u64, seed: u64) -> Result<()> {
    let table = Table::read(alloc, input.table().as_bytes())?;
    let mut log = Scattered::new(alloc, input.open(), rounds, seed)?;
    let window = Window::new(Window::LONGEST).ok_or_else(|| anyhow!("no window"))?;
    let options = Options {
        window,
        ..options_of(false)?
    };
    decode(rt, alloc, "scattered", &table, options, &mut log)
}

/// Decodes the next round of a log as a part, from the saved state of the previous part.
fn next_part(
    alloc: Global,
    table: &Table,
    saved: Option<&[u8]>,
    log: &mut Replay,
    texts: &mut Digest,
    reports: &mut Digest,
) -> Result<Part> {
    log.go_on(1);
    let options = options_of(false)?;
    let part = run_part(alloc, table, saved, options, log, texts, reports)?;
    push(texts, &part.state)?;
    Ok(part)
}

/// Decodes a lossy bus in parts: a first one and `rounds` more, each from the saved state of the previous part.
fn parts(rt: &impl Print, alloc: Global, input: &Input, rounds: u64, seed: u64) -> Result<()> {
    let mut table = Table::read(alloc, input.table().as_bytes())?;
    table.compute_id();
    let mut log = Replay::new(alloc, input.bus(), SECONDS, LOST, seed)?;
    let mut texts = Digest::new(alloc);
    let mut reports = Digest::new(alloc);
    let mut last = next_part(alloc, &table, None, &mut log, &mut texts, &mut reports)?;
    for _part in 0..rounds {
        let saved = Some(last.state.as_slice());
        last = next_part(alloc, &table, saved, &mut log, &mut texts, &mut reports)?;
    }
    tell(rt, "parts", last.counts, texts, reports)
}

/// Adds what a table contains about all PGNs to a digest.
fn push_table(table: &Table, digest: &mut Digest) -> Result<()> {
    push(digest, &table.id())?;
    for pgn in 0..131_072u32 {
        if let Some(kind) = table.kind(pgn) {
            let sent = match kind {
                Kind::Single => b'1',
                Kind::Fast => b'2',
            };
            push(digest, &[sent])?;
            push(digest, &pgn.to_le_bytes())?;
            if let Some(definition) = table.choose(pgn, &[0; 8]) {
                push(digest, definition.description().as_bytes())?;
            }
        }
    }
    Ok(())
}

/// Reads a table. What it contains about all PGNs goes to a digest, with several JSON lines of each definition.
fn read_table(
    alloc: Global,
    text: &[u8],
    lines: u64,
    mut random: u64,
    digest: &mut Digest,
) -> Result<()> {
    let table = Table::read(alloc, text)?;
    push_table(&table, digest)?;
    let text = str::from_utf8(text).map_err(|_| anyhow!("the table is not UTF-8"))?;
    let mut line = LineBuffer::new(alloc);
    let mut json = Vec::new(alloc);
    for definition in text.split("[[pgn]]\n").skip(1) {
        for _line in 0..lines {
            random = next_random(random);
            let packet = described(definition, random).ok_or_else(|| anyhow!(
                "no message: {definition}"
            ))?;
            json.clear();
            json_line_in(alloc, &table, &packet, false, &mut line, &mut json)?;
            push(digest, &json)?;
        }
    }
    Ok(())
}

/// Reads `rounds` tables, each with other descriptions. Every twentieth time it also reads a table of 4,096 PGNs and a
/// table of 20 lookups with 4,096 names each.
fn start(rt: &impl Print, alloc: Global, input: &Input, rounds: u64, seed: u64) -> Result<()> {
    let mut digest = Digest::new(alloc);
    let mut random = first_random(seed);
    for round in 0..rounds {
        random = next_random(random);
        let text = with_letters(alloc, input.table(), random)?;
        read_table(alloc, &text, 1, random, &mut digest)?;
        if round % 20 == 0 {
            let text = many_pgns(alloc, 4096, random)?;
            read_table(alloc, &text, 1, random, &mut digest)?;
            let text = many_names(alloc, 20, 4096, random)?;
            read_table(alloc, &text, 1024, random, &mut digest)?;
        }
    }
    let reports = Digest::new(alloc);
    tell(rt, "start", Counts::NONE, digest, reports)
}

/// Writes `rounds` rounds of the bus as plain lines, writes whole messages as frames in both forms, and reports bad
/// lines.
fn convert(rt: &impl Print, alloc: Global, input: &Input, rounds: u64, seed: u64) -> Result<()> {
    let table = Table::read(alloc, input.table().as_bytes())?;
    let mut texts = Digest::new(alloc);
    let mut reports = Digest::new(alloc);

    let mut log = Replay::new(alloc, input.bus(), SECONDS, 0, seed)?;
    log.go_on(rounds);
    let counts = run_plain(alloc, &mut log, &mut texts, &mut reports)?;
    tell(rt, "plain", counts, texts, reports)?;

    for name in [None, Some("can0")] {
        if !name.is_none_or(|name: &str| is_interface(name.as_bytes())) {
            return Err(anyhow!("no interface"));
        }
        let mut texts = Digest::new(alloc);
        let mut reports = Digest::new(alloc);
        let mut log = Replay::new(alloc, input.whole(), SECONDS, 0, seed)?;
        log.go_on(rounds);
        let counts = run_frames(alloc, &table, name, &mut log, &mut texts, &mut reports)?;
        tell(rt, "frames", counts, texts, reports)?;
    }

    let mut log = Replay::new(alloc, input.bad(), SECONDS, 0, seed)?;
    log.go_on(rounds);
    decode(rt, alloc, "bad", &table, options_of(false)?, &mut log)
}

/// Writes `rounds` messages of each definition and as many decimal numbers, each into a vector of its own.
fn alone(rt: &impl Print, alloc: Global, input: &Input, rounds: u64, seed: u64) -> Result<()> {
    let table = Table::read(alloc, input.table().as_bytes())?;
    let mut digest = Digest::new(alloc);
    let mut text = Vec::new(alloc);
    let mut random = first_random(seed);
    for definition in input.table().split("[[pgn]]\n").skip(1) {
        random = next_random(random);
        let packet = described(definition, random).ok_or_else(|| anyhow!(
            "no message: {definition}"
        ))?;
        for round in 0..rounds {
            text.clear();
            json_line(alloc, &table, &packet, false, &mut text)?;
            decimal_text(alloc, i128::from(round), 3, &mut text)?;
            push(&mut digest, &text)?;
        }
    }
    tell(rt, "alone", Counts::NONE, digest, Digest::new(alloc))
}

/// Runs one job, or `all`.
pub(crate) fn run(
    rt: &impl Print,
    alloc: Global,
    job: &str,
    input: &Input,
    rounds: u64,
    seed: u64,
) -> Result<()> {
    match job {
        "day" => day(rt, alloc, input, rounds, seed),
        "lossy" => lossy(rt, alloc, input, rounds, seed),
        "open" => open(rt, alloc, input, rounds, seed),
        "scattered" => scattered(rt, alloc, input, rounds, seed),
        "parts" => parts(rt, alloc, input, rounds, seed),
        "start" => start(rt, alloc, input, rounds, seed),
        "convert" => convert(rt, alloc, input, rounds, seed),
        "alone" => alone(rt, alloc, input, rounds, seed),
        "all" => {
            day(rt, alloc, input, rounds, seed)?;
            lossy(rt, alloc, input, rounds, seed)?;
            open(rt, alloc, input, rounds, seed)?;
            scattered(rt, alloc, input, rounds, seed)?;
            parts(rt, alloc, input, rounds, seed)?;
            start(rt, alloc, input, rounds, seed)?;
            convert(rt, alloc, input, rounds, seed)?;
            alone(rt, alloc, input, rounds, seed)
        }
        _ => Err(anyhow!("no job: {job}")),
    }
}
