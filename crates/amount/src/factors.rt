// What a node adds to the amount, and how often.
ghost use Rattle.std.specs.Prelude.{◌≡◌, ◌+◌, ◌-◌, ◌*◌, ◌^◌, ℕ, min, List};
ghost use Rattle.lang.specs.Instr.{instr};
ghost use Rattle.amount.specs.Weighing.{load, turned, counted, added, level};

use lang::code::Node;
use lang::program::Program;

// How often what stands here counts, and how often it does outside the `all` around, and outside the one around that.
#[derive(Clone, Copy)]
pub struct Factors {
    pub now: u64,
    pub outer: u64,
    pub outermost: u64,
}

impl Factors {
    // Outside of `all`.
    pub fn at_level(count: u64) -> Self
        ensures { result ≡ level count }
    {
        Factors {
            now: count,
            outer: count,
            outermost: count,
        }
    }

    // How often counts what stands at a node and behind it; a measure counts as often as `measure` says.
    pub fn turn(self, program: &Program<'_>, node: Node, measure: u64) -> Self
        ensures { result ≡ turned measure self (load (instr program.now.text.now node)) }
    {
        match node {
            Node::Bound(n) => Factors {
                now: self.now.saturating_mul(program.number(n)),
                outer: self.now,
                outermost: self.outer,
            },
            Node::EndAll => Factors {
                now: self.outer,
                outer: self.outermost,
                outermost: self.outermost,
            },
            Node::If(_) | Node::Test(_) => Factors::at_level(2),
            Node::Invariant(_) => Factors::at_level(3),
            Node::Measure(_) => Factors::at_level(measure),
            Node::Then(_) | Node::Do(_) => Factors::at_level(1),
            _ => self,
        }
    }

    // A total with what a node adds, where the names of the procedure are so much.
    pub fn add(self, total: u64, node: Node, names: u64) -> u64
        ensures { (text : List ℕ) → result ≡ min (total + (self.now * counted (load (instr text node)) + added names (load (instr text node)))) (2 ^ 64 - 1) }
    {
        total
            .saturating_add(self.now.saturating_mul(count(node)))
            .saturating_add(addition(node, names))
    }
}

// What a node of an expression counts.
fn count(node: Node) -> u64
    ensures { (text : List ℕ) → result ≡ counted (load (instr text node)) }
{
    match node {
        Node::Num(_) | Node::Var(_) | Node::Old(_) | Node::Binary(_, _) => 1,
        Node::Index(_) | Node::OldIndex(_) => 16,
        Node::True(_) | Node::Compare(_, _) | Node::And(_) | Node::Or(_) => 1,
        Node::Implies(_) | Node::Not(_) | Node::All(_) | Node::Bound(_) => 1,
        _ => 0,
    }
}

// What a node of a statement adds, where the names of the procedure are so much.
fn addition(node: Node, names: u64) -> u64
    ensures { (text : List ℕ) → result ≡ min (added names (load (instr text node))) (2 ^ 64 - 1) }
{
    match node {
        Node::Assign(_) | Node::Check(_) => 2,
        Node::Store(_) => 32,
        Node::Havoc(_) => names.saturating_add(1),
        Node::If(_) => names.saturating_mul(2).saturating_add(2),
        Node::While(_) => names.saturating_mul(2).saturating_add(4),
        _ => 0,
    }
}
