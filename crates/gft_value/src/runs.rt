//! Sets of numbers as runs: sorted, apart, none empty.
use gft_core::NoMemory;
use std::alloc::Global;

/// The numbers from `start` up to and without `end`.
#[derive(Clone, Copy)]
pub struct Run {
    pub start: u32,
    pub end: u32,
}

pub type Runs = Vec<Run>;

/// All numbers below the count.
pub fn full(alloc: Global, count: u32) -> Result<Runs, NoMemory> {
    let mut runs = Vec::new(alloc);
    if count > 0 {
        runs.push(Run {
            start: 0,
            end: count,
        })?;
    }
    Ok(runs)
}

/// The number alone, where it is below the count.
pub fn single(alloc: Global, number: u128, count: u32) -> Result<Runs, NoMemory> {
    let mut runs = Vec::new(alloc);
    if let Ok(start) = u32::try_from(number) {
        if start < count {
            runs.push(Run {
                start,
                end: start + 1,
            })?;
        }
    }
    Ok(runs)
}

/// Whether these are all numbers below the count.
fn is_full(runs: &[Run], count: u32) -> bool {
    match runs {
        [] => count == 0,
        [run] => run.start == 0 && run.end == count,
        _ => false,
    }
}

fn scaled(run: Run, by: u32) -> Run {
    Run {
        start: run.start.saturating_mul(by),
        end: run.end.saturating_mul(by),
    }
}

/// The run moved on by so many.
pub fn shifted(run: Run, by: u32) -> Run {
    Run {
        start: run.start.saturating_add(by),
        end: run.end.saturating_add(by),
    }
}

/// Adds each run, shifted.
pub fn push_shifted(out: &mut Runs, runs: &[Run], by: u32) -> Result<(), NoMemory> {
    'each: for run in runs {
        out.push(shifted(*run, by))?;
    }
    Ok(())
}

/// The numbers `i * count + k` with i of the first set and k of the second, whose numbers are below
/// the count. Where the second set is full no number of the first is looked at by itself.
pub fn product(
    alloc: Global,
    firsts: &[Run],
    seconds: &[Run],
    count: u32,
) -> Result<Runs, NoMemory> {
    let mut out = Vec::new(alloc);
    let whole = is_full(seconds, count);
    'each: for run in firsts {
        if whole {
            out.push(scaled(*run, count))?;
        } else {
            'numbers: for i in run.start..run.end {
                push_shifted(&mut out, seconds, i.saturating_mul(count))?;
            }
        }
    }
    Ok(out)
}

/// The first number below the count that is not marked.
pub fn first_unmarked(marks: &[bool]) -> Option<usize> {
    marks.iter().position(|mark| !*mark)
}

/// Marks the numbers.
pub fn mark(marks: &mut [bool], runs: &[Run]) {
    'each: for run in runs {
        let end = (run.end as usize).min(marks.len());
        'numbers: for i in run.start as usize..end {
            marks[i] = true;
        }
    }
}
