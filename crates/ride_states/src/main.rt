// Where was the pad at each sample? Reads a ride from standard input and prints, for each instant, the segment that it
// belongs to and the forward state there, interpolated between the checkpoints around it.
#![tactic(auto)]

mod ride;

use anyhow::anyhow;
use checkpointing::segments::segment_of;
use ride::{Checkpoint, checkpoints, ends, state_at, time_of};
use scalar::times::Finite64;
use std::alloc::Global;
use std::env;
use std::io::{BufWriter, Read, Stdout, Write};
use std::process::ExitCode;

// Up to here an f64 holds every whole number exactly.
const LARGEST: u64 = 9007199254740992;

// One line of the output: the instant, its segment and the state there, or `-` for what there is none of.
fn show(
    heap: Global,
    out: &mut BufWriter<Stdout>,
    points: &[Checkpoint],
    bounds: &[(Finite64, Finite64)],
    n: i64,
) -> anyhow::Result<()> {
    let t = time_of(n)?;
    let Some(segment) = segment_of::<f64>(bounds, t) else {
        writeln!(out, "{n} - - -")?;
        return Ok(());
    };
    match state_at(heap, points, segment, t)? {
        Some(state) => {
            let [z, v] = state;
            writeln!(out, "{n} {segment} {z} {v}")?
        }
        None => writeln!(out, "{n} {segment} - -")?,
    }
    Ok(())
}

// The program takes no argument.
fn refuse_arguments(rt: &HostRuntime) -> anyhow::Result<()> {
    if let Some(arg) = env::args(rt)?.nth(1) {
        return Err(anyhow!(format!(in rt.alloc(); "unknown argument {arg}")?));
    }
    Ok(())
}

fn run(rt: &HostRuntime) -> anyhow::Result<()> {
    let heap = rt.alloc();
    refuse_arguments(rt)?;
    let mut bytes = Vec::new(heap);
    rt.stdin().read_to_end(&mut bytes)?;
    let ride = tables::read(heap, bytes.as_slice(), LARGEST)?;
    let points = checkpoints(heap, ride.checkpoints.as_slice())?;
    let bounds = ends(heap, points.as_slice())?;
    let mut out = BufWriter::new(heap, rt.stdout())?;
    writeln!(out, "t segment z v")?;
    for [t, _] in ride.samples.as_slice() {
        show(heap, &mut out, points.as_slice(), bounds.as_slice(), *t)?;
    }
    out.flush()?;
    Ok(())
}

fn main(rt: HostRuntime) -> anyhow::Result<ExitCode> {
    match run(&rt) {
        Ok(()) => Ok(ExitCode::SUCCESS),
        Err(e) => {
            eprintln!(rt; "ride-states: {e}")?;
            Ok(ExitCode::FAILURE)
        }
    }
}
