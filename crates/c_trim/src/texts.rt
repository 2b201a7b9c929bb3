// Which variables a program names.
ghost use Rattle.std.specs.Prelude.{◌≡◌, map};
ghost use Rattle.std.specs.List.{flat_map};
ghost use Rattle.c_ast.specs.Rules.{same_name};
ghost use Rattle.c_ast.specs.View.{exp_of, place_of, asked_of, told_of, statement_of, statements_of, function_of, whole_of};
ghost use Rattle.c_ast.specs.Events.{exp_events, place_events, asked_events, told_events, bound_events, statement_events, block_events, function_events};
ghost use Rattle.c_ast.specs.Events.{program_events};
ghost use Rattle.c_trim.specs.Candidates.{noted_one, noted, marked};

use c_ast::{Ask, Bound, Expr, Func, Name, Program, Stmt, Target, Tell};

/// A variable that is declared, and whether a text names it.
#[derive(Clone, Copy)]
pub(crate) struct Candidate {
    pub(crate) name: Name,
    pub(crate) size: Option<u32>,
    pub(crate) named: bool,
}

/// Whether two names are the same.
fn same(x: Name, y: Name) -> bool
    ensures { result ≡ same_name x y }
{
    x.letter == y.letter && x.number == y.number
}

/// The variable where a text names this one.
fn noted_one(candidate: Candidate, x: Name) -> Candidate
    ensures { result ≡ noted_one x candidate }
{
    Candidate {
        name: candidate.name,
        size: candidate.size,
        named: candidate.named || same(x, candidate.name),
    }
}

/// Notes that a text names this variable.
fn note(candidates: &mut [Candidate], x: Name)
    ensures { candidates.new ≡ noted x candidates.old }
{
    for at in 0..candidates.len() {
        candidates[at] = noted_one(candidates[at], x);
    }
}

/// Notes what an expression reads.
#[tactic(auto, using(crate::proofs::Marking::marked_both, crate::proofs::Marking::marked_none, crate::proofs::Marking::noted_read))]
fn expr(candidates: &mut [Candidate], e: &Expr)
    ensures { candidates.new ≡ marked (exp_events (exp_of e.now)) candidates.old }
{
    match e {
        Expr::Num(_) => {}
        Expr::Var(x) => note(candidates, *x),
        Expr::At(x, index) => {
            note(candidates, *x);
            expr(candidates, index);
        }
        Expr::Neg(value) => expr(candidates, value),
        Expr::Not(value) => expr(candidates, value),
        Expr::Bin(_, left, right) => {
            expr(candidates, left);
            expr(candidates, right);
        }
    }
}

/// Notes what a place that is assigned names.
#[tactic(auto, using(crate::proofs::Marking::noted_cell, crate::proofs::Marking::noted_assign))]
fn target(candidates: &mut [Candidate], place: &Target)
    ensures { candidates.new ≡ marked (place_events (place_of place.now)) candidates.old }
{
    match place {
        Target::Var(x) => note(candidates, *x),
        Target::At(x, index) => {
            note(candidates, *x);
            expr(candidates, index);
        }
    }
}

/// Notes what a question reads.
#[tactic(auto, using(crate::proofs::Marking::marked_none, crate::proofs::Marking::noted_read))]
fn ask(candidates: &mut [Candidate], ask: &Ask)
    ensures { candidates.new ≡ marked (asked_events (asked_of ask.now)) candidates.old }
{
    match ask {
        Ask::More(e) => expr(candidates, e),
        Ask::Input(e) => expr(candidates, e),
        Ask::Until => {}
        Ask::Limit => {}
    }
}

/// Notes what an observation reads.
#[tactic(auto, using(crate::proofs::Marking::marked_both, crate::proofs::Marking::marked_none, crate::proofs::Marking::noted_read))]
fn tell(candidates: &mut [Candidate], tell: &Tell)
    ensures { candidates.new ≡ marked (told_events (told_of tell.now)) candidates.old }
{
    match tell {
        Tell::Start => {}
        Tell::Event(a, b, c) => {
            expr(candidates, a);
            expr(candidates, b);
            expr(candidates, c);
        }
        Tell::Val(a, b, c, d) => {
            expr(candidates, a);
            expr(candidates, b);
            expr(candidates, c);
            expr(candidates, d);
        }
        Tell::End(a) => expr(candidates, a),
        Tell::Stop(a, b, c) => {
            expr(candidates, a);
            expr(candidates, b);
            expr(candidates, c);
        }
    }
}

/// Notes what the bound of a loop reads.
#[tactic(auto, using(crate::proofs::Marking::marked_none, crate::proofs::Marking::noted_read))]
fn bound(candidates: &mut [Candidate], bound: &Bound)
    ensures { candidates.new ≡ marked (bound_events bound.now) candidates.old }
{
    match bound {
        Bound::Num(_) => {}
        Bound::Var(x) => note(candidates, *x),
    }
}

/// Notes what a statement names.
#[cycle(statements)]
#[tactic(auto, using(crate::proofs::Marking::marked_both, crate::proofs::Marking::call_none))]
fn statement(candidates: &mut [Candidate], s: &Stmt)
    ensures { candidates.new ≡ marked (statement_events (statement_of s.now)) candidates.old }
{
    match s {
        Stmt::Set(place, e) => {
            target(candidates, place);
            expr(candidates, e);
        }
        Stmt::Ask(place, question) => {
            target(candidates, place);
            ask(candidates, question);
        }
        Stmt::If(e, yes, no) => {
            expr(candidates, e);
            block(candidates, yes);
            block(candidates, no);
        }
        Stmt::For(counter, end, body) => {
            note(candidates, *counter);
            bound(candidates, end);
            block(candidates, body);
        }
        Stmt::Call(_) => {}
        Stmt::Tell(told) => tell(candidates, told),
    }
}

/// Notes what some statements name.
#[cycle(statements)]
fn block(candidates: &mut [Candidate], statements: &[Stmt])
    ensures { candidates.new ≡ marked (block_events (statements_of statements.now)) candidates.old }
{
    for s in statements {
        statement(candidates, s);
    }
}

/// Notes what some functions name.
fn functions(candidates: &mut [Candidate], funcs: &[Func])
    ensures { candidates.new ≡ marked (flat_map function_events (map function_of funcs.now)) candidates.old }
{
    for func in funcs {
        block(candidates, &func.body);
    }
}

/// Notes what the texts of a program name.
pub(crate) fn mark(candidates: &mut [Candidate], p: &Program)
    ensures { candidates.new ≡ marked (program_events (whole_of p.now)) candidates.old }
{
    functions(candidates, &p.funcs);
    block(candidates, &p.main);
}
