use el_outside::NoMemory;
use scope_table::Locals;
use std::alloc::Global;
use std::fmt::Write;

/// Where the innermost variable of a text is, counted from the innermost.
fn line(out: &mut String, locals: &Locals, around: &str, text: &str) -> Result<(), NoMemory> {
    match locals.find(text) {
        Some(index) => writeln!(out, "    {around}: `{text}` is v{index}")?,
        None => writeln!(out, "    {around}: `{text}` is none")?,
    }
    Ok(())
}

fn come(out: &mut String, locals: &mut Locals) -> Result<(), NoMemory> {
    locals.push("x")?;
    locals.push("x")?;
    locals.push("")?;
    line(out, locals, "x x _", "x")
}

fn hide(out: &mut String, locals: &mut Locals) -> Result<(), NoMemory> {
    locals.push("x")?;
    line(out, locals, "x x _ x", "x")?;
    line(out, locals, "x x _ x", "")
}

fn go(out: &mut String, locals: &mut Locals) -> Result<(), NoMemory> {
    locals.cut(3);
    line(out, locals, "x x _", "x")?;
    locals.cut(1);
    line(out, locals, "x", "x")?;
    locals.cut(0);
    line(out, locals, "nothing", "x")
}

/// Where x is among variables of this text and one without a name, as they come and go.
pub fn places(alloc: Global) -> Result<String, NoMemory> {
    let mut out = String::from_str(alloc, "variables around an expression\n")?;
    let mut locals = Locals::new(alloc);
    come(&mut out, &mut locals)?;
    hide(&mut out, &mut locals)?;
    go(&mut out, &mut locals)?;
    Ok(out)
}
