//! Cursors, places of offsets, and texts with a part replaced.
use crate::fault::Fault;
use el_outside::{CharSet, Cursor, LineTable, Pos, Span, is_white, replace};

/// What is neither white space nor a bracket.
struct Words;

impl CharSet for Words {
    ghost use Rattle.std.specs.Prelude.{not, ◌||◌, ◌==◌};
    ghost use Rattle.el_outside.specs.Runs.{is_white};

    ghost holds = { λ _ c. not (is_white c || c == 40) };

    fn has(&self, c: char) -> bool {
        !(is_white(c) || c == '(')
    }
}

/// Prints the place of what is left, and takes a character.
fn step(rt: &impl Print, cursor: &mut Cursor<'_>) -> Result<(), Fault> {
    let at = cursor.at();
    let pos = cursor.pos();
    let taken = cursor.next_char();
    step_at(rt, at, pos, taken)
}

fn step_at(rt: &impl Print, at: u32, pos: Pos, taken: Option<char>) -> Result<(), Fault> {
    let line = pos.line;
    let col = pos.col;
    match taken {
        Some(c) => {
            let code = c as u32;
            println!(rt; "cursor: U+{code:X} at byte {at}, {line}:{col}")?;
        }
        None => println!(rt; "cursor: end at byte {at}, {line}:{col}")?,
    }
    Ok(())
}

/// Columns are characters: a mark that begins the text is none, a tab and a lambda of two bytes are one each.
fn walk(rt: &impl Print) -> Result<(), Fault> {
    let mut cursor = Cursor::new("\u{FEFF}a\tλ(\r\n\u{FEFF}b");
    for _ in 0..10 {
        step(rt, &mut cursor)?;
    }
    Ok(())
}

/// Takes a word, and prints it with what follows.
fn take_word(rt: &impl Print, cursor: &mut Cursor<'_>) -> Result<(), Fault> {
    let word = cursor.longest(&Words);
    let next = cursor.sees('(');
    let second = cursor.sees_second('x');
    println!(rt; "longest: [{word}], ( next: {next}, x second: {second}")?;
    Ok(())
}

fn longest(rt: &impl Print) -> Result<(), Fault> {
    let mut cursor = Cursor::new("née(x y");
    take_word(rt, &mut cursor)?;
    take_word(rt, &mut cursor)?;
    cursor.skip();
    copied(rt, &mut cursor)?;
    white(rt)
}

/// What is left of a copy, after a word is taken from the cursor itself.
fn copied(rt: &impl Print, cursor: &mut Cursor<'_>) -> Result<(), Fault> {
    let start = cursor.copy();
    take_word(rt, cursor)?;
    let left = start.rest();
    println!(rt; "left of the copy: [{left}]")?;
    Ok(())
}

fn white(rt: &impl Print) -> Result<(), Fault> {
    let space = is_white(' ');
    let mark = is_white('\u{FEFF}');
    let letter = is_white('x');
    println!(rt; "white space: U+20 {space}, U+FEFF {mark}, U+78 {letter}")?;
    Ok(())
}

fn place(rt: &impl Print, at: u32, pos: Pos) -> Result<(), Fault> {
    let line = pos.line;
    let col = pos.col;
    println!(rt; "line table: byte {at} at {line}:{col}")?;
    Ok(())
}

fn places<R: Print + AllocGlobal>(rt: &R) -> Result<(), Fault> {
    let text = "\u{FEFF}a\tλ\r\n\n\u{FEFF}b";
    let table = LineTable::new(rt.alloc(), text)?;
    for at in 0..15_u32 {
        if text.is_char_boundary(at as usize) {
            place(rt, at, table.pos(at))?;
        }
    }
    Ok(())
}

fn replacement<R: Print + AllocGlobal>(
    rt: &R,
    start: u32,
    end: u32,
    new: &str,
) -> Result<(), Fault> {
    let text = "f = λ";
    if start <= end
        && text.is_char_boundary(start as usize)
        && text.is_char_boundary(end as usize)
    {
        let replaced = replace(rt.alloc(), text, Span { start, end }, new)?;
        println!(rt; "replace {start}-{end} by [{new}]: [{replaced}]")?;
    }
    Ok(())
}

fn replacements<R: Print + AllocGlobal>(rt: &R) -> Result<(), Fault> {
    replacement(rt, 0, 1, "m")?;
    replacement(rt, 4, 6, "s n")?;
    replacement(rt, 6, 6, "!")?;
    replacement(rt, 0, 6, "")
}

pub fn all<R: Print + AllocGlobal>(rt: &R) -> Result<(), Fault> {
    walk(rt)?;
    longest(rt)?;
    places(rt)?;
    replacements(rt)
}
