//! The program over any reader and writer: what it draws or prints, and its status.
ghost use Rattle.std.specs.Prelude.{◌≡◌, ◌≢◌, false, IfSome, None};
ghost use Rattle.flow_script.specs.Playing.{TakesWithin, is_read_failed, is_write_failed};
ghost use Rattle.flow_script.specs.Telling.{Tells, memory_line};
ghost use Rattle.flow_script.specs.Watching.{inner_of, has_failed};
ghost use Rattle.flow_script.specs.ScriptMeaning.{script_meaning};
ghost use Rattle.script_drawing.specs.Drawing.{Draws, Pictures};
ghost use Rattle.script_drawing.specs.Program.{RunsDrawing, form_of, draw_usage_line};

use crate::drawing::drawing_of;
use crate::form::Form;
use flow_script::{
    REFUSED, ScriptFault, Watched, read_all, tell, tell_arguments, tell_fault, write_all,
};
use script_explain::explain_refusal;
use std::alloc::Global;
use std::io::{ErrorKind, Read, Write};

/// The status if the script was drawn.
const DRAWN: u8 = 0;

/// How the program is called.
const USAGE: &str = "usage: flow_draw [--text | --explain | --json]\n";

/// Returns the form that the arguments ask for. They do not include the program's name.
fn form_of(args: &[String]) -> Option<Form>
    ensures { result ≡ form_of args.now }
{
    match args {
        [] => Some(Form::Svg),
        [flag] => match flag.as_str() {
            "--text" => Some(Form::Text),
            "--explain" => Some(Form::Explained),
            "--json" => Some(Form::Json),
            _ => None,
        },
        _ => None,
    }
}

/// Reports that the arguments were not read: prints `out of memory`, or else how the program is called, and returns the
/// status.
pub fn refuse_arguments<W: Write>(output: &mut Watched<W>, kind: ErrorKind) -> u8
    requires { has_failed output.old ≡ false }
    ensures memory { kind ≡ ErrorKind.OutOfMemory → Tells (has_failed output.new)
        (W.contents (inner_of output.old)) (W.contents (inner_of output.new)) memory_line 4 result }
    ensures wrong { kind ≢ ErrorKind.OutOfMemory → Tells (has_failed output.new)
        (W.contents (inner_of output.old)) (W.contents (inner_of output.new)) draw_usage_line 2 result }
{
    tell_arguments(output, kind, USAGE)
}

/// Draws the script of these bytes, or returns why it is refused. `errors` gets lines that explain where and why. Lines
/// that cannot be written are left out: the line on the output and the status still report the fault.
fn drawn_or_explained<E: Write>(
    alloc: Global,
    form: Form,
    bytes: &[u8],
    errors: &mut E,
) -> Result<String, ScriptFault>
    ensures { Pictures (script_meaning bytes.now) result }
{
    match drawing_of(alloc, form, bytes) {
        Ok(drawn) => Ok(drawn),
        Err(fault) => {
            if let Ok(words) = explain_refusal(alloc, bytes, fault) {
                let _written = errors.write_all(words.as_bytes());
            }
            Err(fault)
        }
    }
}

/// Reads a script, plays it, and writes its drawing after the last step. Takes at most 1,048,577 bytes from the reader.
fn draw<R: Read, W: Write, E: Write>(
    alloc: Global,
    form: Form,
    input: &mut Watched<R>,
    output: &mut Watched<W>,
    errors: &mut E,
) -> Result<(), ScriptFault>
    requires reads { has_failed input.old ≡ false }
    requires writes { has_failed output.old ≡ false }
    ensures draws { Draws (R.remaining (inner_of input.old)) (W.contents (inner_of output.old))
        (W.contents (inner_of output.new)) result }
    ensures taken { TakesWithin
        (R.remaining (inner_of input.old)) (R.remaining (inner_of input.new)) }
    ensures read_failed { has_failed input.new ≡ is_read_failed result }
    ensures write_failed { has_failed output.new ≡ is_write_failed result }
{
    let bytes = match read_all(alloc, input) {
        Ok(bytes) => bytes,
        Err(fault) => return Err(fault),
    };
    let drawn = match drawn_or_explained(alloc, form, bytes.as_slice(), errors) {
        Ok(drawn) => drawn,
        Err(fault) => return Err(fault),
    };
    write_all(output, drawn.as_bytes())
}

/// Reads a script and draws it, and returns the program's status.
fn draw_script<R: Read, W: Write, E: Write>(
    alloc: Global,
    form: Form,
    input: &mut Watched<R>,
    output: &mut Watched<W>,
    errors: &mut E,
) -> u8
    requires reads { has_failed input.old ≡ false }
    requires writes { has_failed output.old ≡ false }
    ensures { RunsDrawing
        (R.remaining (inner_of input.old)) (has_failed input.new) (has_failed output.new)
        (W.contents (inner_of output.old)) (W.contents (inner_of output.new)) result }
{
    match draw(alloc, form, input, output, errors) {
        Ok(()) => DRAWN,
        Err(fault) => tell_fault(alloc, output, fault),
    }
}

/// Reads a script, draws it in the form that the arguments ask for, and returns the program's status. The arguments do
/// not include the program's name. If they are wrong, nothing is read.
///
/// If the script is refused, `errors` gets some lines for people, which say where and why.
///
/// 0: the script was drawn; 2: the script or the arguments were refused; 3: a read or a write failed; 4: out of memory.
/// After a write that failed no line is printed.
pub fn run<R: Read, W: Write, E: Write>(
    alloc: Global,
    args: &[String],
    input: &mut Watched<R>,
    output: &mut Watched<W>,
    errors: &mut E,
) -> u8
    requires reads { has_failed input.old ≡ false }
    requires writes { has_failed output.old ≡ false }
    ensures usage { form_of args.now ≡ None → Tells (has_failed output.new)
        (W.contents (inner_of output.old)) (W.contents (inner_of output.new)) draw_usage_line 2 result }
    ensures unread { form_of args.now ≡ None → input.new ≡ input.old }
    ensures draws { IfSome (form_of args.now) (λ form. RunsDrawing
        (R.remaining (inner_of input.old)) (has_failed input.new) (has_failed output.new)
        (W.contents (inner_of output.old)) (W.contents (inner_of output.new)) result) }
{
    match form_of(args) {
        Some(form) => draw_script(alloc, form, input, output, errors),
        None => tell(output, USAGE, REFUSED),
    }
}
