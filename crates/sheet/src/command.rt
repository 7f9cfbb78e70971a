// The commands of a sheet (document 01, "The program `names`").
ghost use Rattle.std.specs.Prelude.{◌≡◌};
ghost use Rattle.wire.specs.Name.{zero_from};
ghost use Rattle.sheet.specs.Command.{command_at, function_at, sized_at, word_command, worded_at};

use wire::field::field_at;

// A command with its u32 or its pointer size; the end of the sheet; or the byte of a command that is unknown or cut.
#[derive(Clone, Copy)]
pub enum Command {
    End,
    Flags(u32),
    PointerSize(u32),
    TypeText(u32),
    TypeSize(u32),
    IdText(u32),
    FunctionText(u32),
    Faulty(u8),
}

// The commands that start with a u32.
#[tactic(auto, unfolding(crate::specs::Command::word_command))]
fn word_command(byte: u8, n: u32) -> Command
    ensures { result ≡ word_command byte n }
{
    match byte {
        0x01 => Command::Flags(n),
        0x10 => Command::TypeText(n),
        0x11 => Command::TypeSize(n),
        0x12 => Command::IdText(n),
        0x13 => Command::FunctionText(n),
        _ => Command::Faulty(byte),
    }
}

#[tactic(auto, unfolding(crate::specs::Command::worded_at, wire::specs::Field::field))]
fn worded_at(sheet: &[u8], at: usize, byte: u8) -> Command
    ensures { result ≡ worded_at sheet.now at byte }
{
    match field_at::<u32>(sheet, at) {
        Some(n) => word_command(byte, n),
        None => Command::Faulty(byte),
    }
}

#[tactic(auto, unfolding(crate::specs::Command::sized_at, wire::specs::Field::field))]
fn sized_at(sheet: &[u8], at: usize) -> Command
    ensures { result ≡ sized_at sheet.now at }
{
    match field_at::<u8>(sheet, at) {
        Some(n) => Command::PointerSize(u32::from(n)),
        None => Command::Faulty(0x02),
    }
}

#[tactic(auto, unfolding(crate::specs::Command::function_at, wire::specs::Field::field))]
fn function_at(sheet: &[u8], at: usize) -> Command
    ensures { result ≡ function_at sheet.now at }
{
    if sheet.len().saturating_sub(at) < 20 {
        return Command::Faulty(0x13);
    }
    worded_at(sheet, at, 0x13)
}

// The command at a place.
#[tactic(auto, unfolding(crate::specs::Command::command_at, crate::specs::Command::command_by, wire::specs::Field::field))]
pub fn command_at(sheet: &[u8], at: usize) -> Command
    ensures { result ≡ command_at sheet.now at }
{
    match field_at::<u8>(sheet, at) {
        Some(0x02) => sized_at(sheet, at + 1),
        Some(0x13) => function_at(sheet, at + 1),
        Some(byte) => worded_at(sheet, at + 1, byte),
        None => Command::End,
    }
}

// Where the name at a place ends: at a zero, or after 16 bytes, or with the sheet.
#[tactic(auto, using(crate::proofs::LinesLaws::name_stops, crate::proofs::LinesLaws::name_cut, crate::proofs::LinesLaws::name_none))]
pub fn name_end(sheet: &[u8], at: usize) -> usize
    ensures { result ≡ zero_from 16 sheet.now at }
{
    let room = sheet.len().saturating_sub(at).min(16);
    for end in at..at + room {
        if sheet[end] == 0 {
            return end;
        }
    }
    at + room
}
