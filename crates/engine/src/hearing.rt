// The station's input, part by part: a table as long as its header says, a marking, then steps to the end.
ghost use Rattle.std.specs.Prelude.{◌≡◌, ◌⊎◌, ◌+◌, ◌%◌, ◌≤◌, min, eqb, ◌++◌, length, replicate};
ghost use Rattle.rules.specs.Numbers.{◌if◌, ◌else◌};
ghost use Rattle.rules.specs.Holds.{most_events};
ghost use Rattle.rules.specs.Judge.{judged};
ghost use Rattle.rules.specs.Results.{number_of, refusal_number};
ghost use Rattle.rules.specs.Station.{table_bytes, station, longest_marking, longest_steps, longest_input, longest_output, heard_number};
ghost use Rattle.engine.specs.Heard.{after_table, after_marking, Heard};
ghost use Rattle.duties.specs.AtStart.{AtStart};

use crate::run_bytes;
use image::judging::judge;
use image::{read_marking, read_table, write_marking};
use rules::{Marking, Refusal, Step, Table};

// The longest table that is granted, in bytes.
const TABLE: usize = 4 + Table::MOST_EVENTS + 6 * Table::MOST_RELATIONS;

// The longest marking.
const MARKING: usize = Marking::RECORD_BYTES * Table::MOST_EVENTS;

// The longest steps.
const STEPS: usize = 2 * Step::MOST;

// The longest input: the three together.
pub const LONGEST_INPUT: usize = TABLE + MARKING + STEPS;

// The longest output: an answer byte for each step, and the end marking.
pub const LONGEST_OUTPUT: usize = Step::MOST + MARKING;

// 14 for an output that could be too short, and for bytes said to come after fewer kept ones than the longest input has.
pub fn granted(kept: usize, beyond: usize, room: usize) -> Result<(), Refusal>
    ensures { number_of result ≡ heard_number kept beyond room }
{
    if room < LONGEST_OUTPUT || beyond != 0 && kept < LONGEST_INPUT {
        Err(Refusal::Room)
    } else {
        Ok(())
    }
}

// How many bytes of the input the table has: as many as its header says, if they are there.
fn table_part(input: &[u8]) -> usize
    ensures { result ≡ min (table_bytes input.now) (length input.now) }
{
    if input.len() < 4 {
        return input.len();
    }
    let first = input[0] as usize;
    let second = input[1] as usize;
    let whole = 4 + first / 2 + 6 * (first % 2 * 256 + second);
    whole.min(input.len())
}

// Steps of which more came than are kept are too long, but an odd last byte comes first.
fn too_long(t: &Table, m: &Marking, kept: usize, beyond: usize) -> Refusal
    ensures { refusal_number result ≡ (judged t.now m.now else 1 if eqb ((kept + beyond) % 2) 1 else 14) }
{
    if let Err(refusal) = judge(t, m) {
        return refusal;
    }
    if (kept % 2 + beyond % 2) % 2 == 1 {
        Refusal::Length
    } else {
        Refusal::Room
    }
}

// The steps are played, and the end marking is written behind their answers.
fn heard_steps(
    t: &Table,
    m: &Marking,
    steps: &[u8],
    beyond: usize,
    output: &mut [u8],
) -> Result<usize, Refusal>
    requires room { longest_output ≤ length output.old }
    requires enough { (beyond ≡ 0) ⊎ (longest_steps ≤ length steps.now) }
    ensures { Heard (after_marking t.now m.now steps.now beyond) output.old result output.new }
{
    if beyond != 0 {
        return Err(too_long(t, m, steps.len(), beyond));
    }
    let after = run_bytes(t, m, steps, output)?;
    let count = steps.len() / 2;
    write_marking(&after, &mut output[count..])?;
    Ok(count + Marking::RECORD_BYTES * t.events)
}

// The marking is read, and the steps behind it are played.
fn heard_marking(t: &Table, rest: &[u8], beyond: usize, output: &mut [u8]) -> Result<usize, Refusal>
    requires few { t.now.events ≤ most_events }
    requires room { longest_output ≤ length output.old }
    requires enough { (beyond ≡ 0) ⊎ (longest_marking + longest_steps ≤ length rest.now) }
    ensures { Heard (after_table t.now rest.now beyond) output.old result output.new }
{
    let size = (Marking::RECORD_BYTES * t.events).min(rest.len());
    let m = read_marking(t.events, &rest[..size])?;
    heard_steps(t, &m, &rest[size..], beyond, output)
}

// The table is read, and what stands behind it is heard.
fn heard(input: &[u8], beyond: usize, output: &mut [u8]) -> Result<usize, Refusal>
    requires room { longest_output ≤ length output.old }
    requires enough { (beyond ≡ 0) ⊎ (longest_input ≤ length input.now) }
    ensures { Heard (station (input.now ++ replicate beyond 0)) output.old result output.new }
{
    let size = table_part(input);
    let t = read_table(&input[..size])?;
    heard_marking(&t, &input[size..], beyond, output)
}

// What is told goes to the start of the output, of a refusal its number; how many bytes.
pub fn told(input: &[u8], beyond: usize, output: &mut [u8]) -> usize
    requires room { longest_output ≤ length output.old }
    requires enough { (beyond ≡ 0) ⊎ (longest_input ≤ length input.now) }
    ensures { AtStart (station (input.now ++ replicate beyond 0)) output.old result output.new }
{
    match heard(input, beyond, output) {
        Ok(count) => count,
        Err(refusal) => {
            output[0] = refusal.into();
            1
        }
    }
}
