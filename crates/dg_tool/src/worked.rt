//! Worked cases: each function here has an empty body, and its contract states what the definitions
//! give for a script of `specs/Worked.antt`. The checker computes them.
ghost use Rattle.std.specs.Prelude.{◌≡◌, []};
ghost use Rattle.dg_script.specs.declared.command.ScriptCode.TheVariants as code;
ghost use Rattle.dg_tool.specs.declared.halt.Halt.TheVariants as halt;
ghost use Rattle.dg_tool.specs.Out.{halted};
ghost use Rattle.dg_tool.specs.Worked.{out_of_bytes, prints, unbound, unbound_lines, making, made_lines, refusing, refused_lines, deleting, deleted_lines, building, building_lines, unclosed};

/// A name that isn't bound, and a block without steps.
pub fn misses()
    ensures { prints unbound unbound_lines }
{}

/// A number that is made, set and asked for.
pub fn makes()
    ensures { prints making made_lines }
{}

/// A block that is refused leaves nothing but the name that it interned.
pub fn refuses()
    ensures { prints refusing refused_lines }
{}

/// A component goes with the object that owns it.
pub fn deletes()
    ensures { prints deleting deleted_lines }
{}

/// What isn't bound isn't built, and what has no build output answers with a fault.
pub fn builds()
    ensures { prints building building_lines }
{}

/// An empty script prints nothing. A block that isn't closed is bad at its first line.
pub fn reads()
    ensures empty { prints [] [] }
    ensures unclosed { out_of_bytes unclosed ≡ halted (halt.BadLine 1 code.OpenBlock) }
{}
