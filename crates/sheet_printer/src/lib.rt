// Prints a sheet's lines on standard output, as many at a time as a lent buffer takes.
#![tactic(auto)]

ghost use Rattle.std.specs.Prelude.{◌≡◌, IfOk, OnErr, length};
ghost use Rattle.sheet.specs.Sheet.{sheet_lines, sheet_fit};
ghost use Rattle.sheet.specs.Printed.{shown, laid_out, SheetContinues};
ghost use Rattle.sheet_printer.specs.Turns.{told, all_turns, AllTold, SomeTurns};

use sheet::Printed;
use std::io;

// Room for the bytes of a file that are read: the first 16,384.
pub fn room() -> [u8; 16_384]
    ensures { 16384 ≡ length result }
{
    [0u8; 16_384]
}

// One turn: the lines that fit, without the first `skip`. Where they can't be printed, the buffer has them all the same.
fn print_some(
    rt: &impl Print,
    types: &[u8],
    ids: &[u8],
    sheet: &[u8],
    out: &mut [u8],
    skip: usize,
) -> io::Result<Printed>
    ensures result_after { IfOk result (λ p. shown out.new p ≡ laid_out out.old (sheet_fit types.now ids.now sheet.now skip (length out.old))) }
    ensures buffer_after { OnErr result (out.new ≡ (laid_out out.old (sheet_fit types.now ids.now sheet.now skip (length out.old))).buf) }
    ensures sheet_continues { SheetContinues types.now ids.now sheet.now skip (length out.old) }
{
    let p = sheet::print_sheet(types, ids, sheet, out, skip);
    let n = p.bytes;
    files::say(rt, &out[..n])?;
    Ok(p)
}

// All lines of a sheet, turn after turn, and how many they are. A buffer that is too short for a line ends the run before that line. Where printing fails, the
// buffer has what the turns up to there leave.
pub fn print_lines(
    rt: &impl Print,
    types: &[u8],
    ids: &[u8],
    sheet: &[u8],
    out: &mut [u8],
) -> io::Result<usize>
    ensures result_after { IfOk result (λ n. told out.new n ≡ all_turns (sheet_lines types.now ids.now sheet.now) out.old) }
    ensures all_told { IfOk result (λ n. AllTold (sheet_lines types.now ids.now sheet.now) (length out.old) n) }
    ensures some_turns { OnErr result (SomeTurns (sheet_lines types.now ids.now sheet.now) out.old out.new) }
{
    let mut skip = 0;
    loop {
        let p = print_some(rt, types, ids, sheet, out, skip)?;
        skip += p.lines;
        if !p.more {
            return Ok(skip);
        }
        if p.lines == 0 {
            return Ok(skip);
        }
    }
}
