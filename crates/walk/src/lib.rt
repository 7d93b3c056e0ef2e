// How a program's code is gone through: by iterators, and by the indices of its nodes. An index is passed beside its program,
// since frames and lengths keep indices alone.
#![tactic(auto)]

ghost use Rattle.std.specs.Prelude.{◌≡◌, ◌+◌, ◌^◌, ◌<◌, min, true, length, MatchOption};
ghost use Rattle.lang.specs.Holding.{code_of};
ghost use Rattle.lang.specs.Instr.{instr};
ghost use Rattle.walk.specs.Roles.{role, ends};
ghost use Rattle.walk.specs.Spans.{span};
ghost use Rattle.walk.specs.Walking.{first, rest, InPart};

pub mod arguments;
pub mod declarations;
pub mod name;
pub mod nest;
pub mod procedures;
pub mod shape;

use lang::code::Node;
use lang::program::Program;

// How many nodes there are.
pub fn len(program: &Program<'_>) -> usize
    ensures { result ≡ length (code_of program.now) }
{
    program.code.len()
}

// The node at an index; past the last, as at the end of a procedure.
pub fn at(program: &Program<'_>, i: usize) -> Node
    ensures node { instr program.now.text.now result ≡ first (rest program.now i) }
    ensures bound { length (code_of program.now) < 2 ^ 64 }
{
    if i >= len(program) {
        return Node::EndProc;
    }
    program.code.get(i).unwrap_or(Node::EndProc)
}

// The index so many nodes on, or behind the last.
pub fn skip(program: &Program<'_>, i: usize, count: usize) -> usize
    ensures { result ≡ min (i + count) (length (code_of program.now)) }
{
    let len = len(program);
    if i < len && count < len - i {
        i + count
    } else {
        len
    }
}

fn ends_part(program: &Program<'_>, node: Node) -> bool
    ensures { result ≡ ends (role (instr program.now.text.now node)) }
{
    matches!(
        &node,
        Node::Param(_) | Node::Local(_) | Node::Body(_) | Node::EndProc
    )
}

fn length_at(program: &Program<'_>, i: usize) -> usize
    ensures { result ≡ span (first (rest program.now i)) }
{
    match at(program, i) {
        Node::Extent(n) | Node::Pre(n) | Node::Post(n) | Node::Body(n) | Node::Scope(n) => n,
        Node::Test(n) | Node::Invariant(n) | Node::Measure(n) | Node::Do(n) => n,
        Node::Then(n) | Node::Else(n) => n,
        _ => 0,
    }
}

// The index behind the part that the node at an index has the length of.
pub fn part_end(program: &Program<'_>, i: usize) -> usize
    ensures { result ≡ min (i + 1 + span (first (rest program.now i))) (length (code_of program.now)) }
{
    skip(program, skip(program, i, 1), length_at(program, i))
}

// The node at an index, if the head or the body in which it stands goes on there.
pub fn going_on(program: &Program<'_>, i: usize) -> Option<Node>
    ensures { MatchOption result (ends (role (first (rest program.now i))) ≡ true) (λ n. InPart program.now i n) }
{
    let node = at(program, i);
    if ends_part(program, node) {
        None
    } else {
        Some(node)
    }
}

// The nodes of a head or a body from an index on, up to its end.
#[derive(Clone, Copy)]
pub struct Nodes<'p> {
    pub program: &'p Program<'p>,
    pub at: usize,
}

// The nodes from an index on.
pub fn nodes_from<'p>(program: &'p Program<'p>, at: usize) -> Nodes<'p>
    ensures program { result.program.now ≡ program.now }
    ensures at { result.at ≡ at }
{
    Nodes { program, at }
}

impl<'p> Iterator for Nodes<'p> {
    ghost use Rattle.walk.specs.Listing.{nodes_behind, GivesNode};

    type Item = Node;

    ghost next_gives = { GivesNode };

    ghost remaining = { nodes_behind };

    fn next(&mut self) -> Option<Node> {
        let node = going_on(self.program, self.at)?;
        self.at += 1;
        Some(node)
    }
}
