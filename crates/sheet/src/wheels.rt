// The read sets of a rule as wheels: the entries, and the member that each stands at. They are two slices, and no struct: a rule
// takes the front of each, and while the wheels turn the members alone change.
ghost use Rattle.std.specs.Prelude.{◌≡◌, ◌+◌, ◌^◌, ◌<◌, ◌≤◌, map, length, take, if◌then◌else◌, slice_index, slice_set};
ghost use Rattle.tokens.specs.Listed.{tokens_of};
ghost use Rattle.sheet.specs.Wheels.{first_member, goes_on, next_entry, entries_of};

use lexer::kind;
use tokens::Tokens;

// The first member of the entry at the index e. `rules::first_entry` is this of another sign and of an index, with a definition
// of its own: one function for both would have a third definition, that the two are shown to be cases of.
#[tactic(auto, unfolding(crate::specs::Wheels::first_member))]
fn first_member(tokens: &Tokens, e: u32) -> u32
    requires { tokens.now.count < 2 ^ 32 }
    ensures { result ≡ first_member (tokens_of tokens.now) e }
{
    if tokens.at(e as usize).kind == kind::L_BRACE {
        return e + 1;
    }
    e
}

// Whether the entry at the index e goes on from its member at c.
#[tactic(auto, unfolding(crate::specs::Wheels::goes_on))]
fn goes_on(tokens: &Tokens, e: u32, c: u32) -> bool
    ensures { result ≡ goes_on (tokens_of tokens.now) e c }
{
    tokens.at(e as usize).kind == kind::L_BRACE && tokens.at(c as usize + 1).kind == kind::COMMA
}

// The index of the entry behind the one at e. A set's members stand at every second index, as long as commas follow. Where they
// stop is what is answered, which `step_by` does not tell where the tokens end first.
fn next_entry(tokens: &Tokens, e: usize) -> usize
    requires { e < tokens.now.count }
    ensures { result ≡ next_entry (tokens_of tokens.now) e }
{
    if tokens.at(e).kind != kind::L_BRACE {
        return e + 2;
    }
    let mut i = e + 1;
    while i < tokens.count && tokens.at(i + 1).kind == kind::COMMA {
        i += 2;
    }
    i + 3
}

// The entries from the index `at` on, at most n, each at its first member; how many there are. Each entry tells where the next
// begins, and the count is what is answered, so that no `for` makes the loop plainer.
pub(crate) fn wheels(
    tokens: &Tokens,
    at: usize,
    n: usize,
    entries: &mut [u32],
    members: &mut [u32],
) -> usize
    requires entries { tokens.now.count ≤ length entries.old }
    requires members { tokens.now.count ≤ length members.old }
    requires small { tokens.now.count < 2 ^ 32 }
    ensures entries { take result entries.new ≡ entries_of (tokens_of tokens.now) n at }
    ensures members { take result members.new
        ≡ map (first_member (tokens_of tokens.now)) (entries_of (tokens_of tokens.now) n at) }
    ensures few { result ≤ tokens.now.count }
{
    let mut i = at;
    let mut t = 0;
    while t < n && i < tokens.count {
        let e = i as u32;
        entries[t] = e;
        members[t] = first_member(tokens, e);
        i = next_entry(tokens, i);
        t += 1;
    }
    t
}

// Turns the wheel t: to its next member, or to its first one if it has none; whether it went on.
pub(crate) fn turn(tokens: &Tokens, entries: &[u32], members: &mut [u32], t: usize) -> bool
    requires wheel { (t < length entries.now)
        × (t < length members.old) }
    requires small { tokens.now.count < 2 ^ 32 }
    ensures goes { result ≡ goes_on (tokens_of tokens.now) (slice_index entries.now t) (slice_index members.old t) }
    ensures turned { members.new ≡ slice_set members.old t (if result then slice_index members.old t + 2
        else first_member (tokens_of tokens.now) (slice_index entries.now t)) }
{
    let went = goes_on(tokens, entries[t], members[t]);
    if went {
        members[t] += 2;
    } else {
        members[t] = first_member(tokens, entries[t]);
    }
    went
}
