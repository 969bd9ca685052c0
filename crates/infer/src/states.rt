// The first of the states in their section.
ghost use Rattle.std.specs.Prelude.{◌≡◌, ◌+◌, ◌<◌, ◌^◌};
ghost use Rattle.infer.specs.States.{first_state};

use diag::Span;

// The place of the first state, whose section stands from the index `at` to before `end`; Span::NONE if
// there is none, as the C interface has it.
// Two indices and no slice, since the row may end before the section: what lies past its end is 0. sheet_view reads a place so
// too, in a crate that needs machine, which infer can do without.
pub fn first_state(out: &[u32], at: usize, end: usize) -> Span
    requires { at + 1 < 2 ^ 64 }
    ensures { result ≡ first_state out.now at end }
{
    if end <= at {
        return Span::NONE;
    }
    Span {
        start: out.get(at).copied().unwrap_or(0),
        end: out.get(at + 1).copied().unwrap_or(0),
    }
}
