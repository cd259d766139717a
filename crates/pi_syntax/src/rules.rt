//! The rules that each program may call without writing them.
ghost use Rattle.std.specs.Prelude.{◌≡◌};
ghost use Rattle.pi_syntax.specs.Prelude.{prelude_text};

/// The rules of the prelude as a program's text, each on a line that a line feed ends (own). Its predicates are
/// `member/2`, `append/3`, `select/3` and `between/3`.
#[tactic(auto, unfolding(crate::specs::Prelude::prelude_text))]
pub fn prelude() -> &'static str
    ensures { result.now ≡ prelude_text }
{
    "\
member(X,[Y|_]) ?=> X = Y.
member(X,[_|L]) => member(X,L).
append(Xs,Ys,Zs), var(Xs) ?=> Xs = [], Ys = Zs.
append(Xs,Ys,Zs), var(Xs) => Xs = [X|R], Zs = [X|S], append(R,Ys,S).
append([],Ys,Zs) => Ys = Zs.
append([X|Xs],Ys,Zs) => Zs = [X|S], append(Xs,Ys,S).
select(X,[Y|L],R) ?=> X = Y, R = L.
select(X,[Y|L],R) => R = [Y|S], select(X,L,S).
between(L,U,X), L =< U ?=> X = L.
between(L,U,X), L < U => between(L+1,U,X).
"
}
