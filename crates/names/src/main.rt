// Prints the lines of the sheet `sheet.bin` over the streams `types.bin` and `ids.bin`, all in the folder that it runs in.
#![tactic(auto)]

use std::io;

fn main(rt: HostRuntime) -> io::Result<()> {
    let mut types = sheet_printer::room();
    let t = files::load(&rt, b"types.bin", &mut types)?;
    let mut ids = sheet_printer::room();
    let u = files::load(&rt, b"ids.bin", &mut ids)?;
    let mut sheet = sheet_printer::room();
    let n = files::load(&rt, b"sheet.bin", &mut sheet)?;
    let mut out = files::large_buffer();
    sheet_printer::print_lines(&rt, &types[..t], &ids[..u], &sheet[..n], &mut out)?;
    Ok(())
}
