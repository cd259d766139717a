//! The trait of stores: what each call shows of a state and makes of it.
ghost use Rattle.std.specs.Prelude.{◌≡◌, ◌↔◌, ℕ, ◌<◌, ◌∷◌, [], ◌++◌, List, Some, length, slice_get, IfOk, OnErr, IsTrue};
ghost use Rattle.pi_terms.specs.Tree.{Tree, Trees, var, int, atom, comp, arg_at};
ghost use Rattle.pi_terms.specs.Variables.{IsGround};
ghost use Rattle.pi_constraints.specs.Value.{IsAcyclic, value};
ghost use Rattle.pi_constraints.specs.State.{Agent, IsUnbound, SpeaksBelow, MayPost, IsActivation, bindings, next, followed, LeadsTo, domain_of, domain_at_root, with_new, with_constraint, with_ended, with_waiting};
ghost use Rattle.pi_constraints.specs.Store.{StoreView, IsGood, IsTerm, AreTerms, IsName, AreWatches, ShowsCell, ShowsAgent, ShowsRead, Keeps, Stays, Changes, Gives, Binds, Confines, Suspends, TakesFirst, Marks, Returns, Lists, IsPostedOn, HasChanged};

use crate::constraint::Constraint;
use crate::domain::Domain;
use crate::event::{Activation, AgentView, Watches};
use pi_terms::{Series, Term};
use std::alloc::{AllocError, Global};

/// The number of a term in a store. A store is safe whatever it is handed; what it answers is said for a `Ref` that it
/// gave and that no `undo` has taken back since.
#[derive(Clone, Copy)]
pub struct Ref {
    pub number: u64,
}

/// What a term of a store is at its root, with bindings followed: the number of an unbound variable, an integer, the
/// number of an atom, or the number of a compound's name and the number of its arguments.
#[derive(Clone, Copy, PartialEq, Eq)]
pub enum Cell {
    Var(u64),
    Int(i128),
    Atom(u64),
    Comp(u64, u64),
}

/// Why a term wasn't read: it has more than 16,777,216 cells, or memory was wanted.
#[derive(Clone, Copy)]
pub enum ReadStop {
    TooLarge,
    Memory,
}

/// Numbers of constraints or variables, ascending.
pub type Places = Series<u64>;

/// The state of a run, and the terms that are made on the way. What a contract says of a `Ref` it says of one that this
/// store gave and that no `undo` has taken back; of a mark, of one that is still good; of what a term is at its root and of
/// its value, for a state in which no term holds itself. Each call that is refused for want of memory leaves the state as it was.
pub trait StateStore: Drop {
    /// The state at one moment, to come back to.
    type Mark: Drop;

    /// What the store holds.
    ghost seen: { Self → StoreView Self.Mark };

    /// The order in which marks are made.
    ghost order: { Self.Mark → ℕ };

    /// A new variable.
    fn new_var(&mut self) -> Result<Ref, AllocError>
        ensures ok { IfOk result (λ made. Gives (seen self.old) (seen self.new) (with_new (seen self.old).now.state) made
            (var (next (seen self.old).now.state))) }
        ensures err { OnErr result (Stays (seen self.old) (seen self.new)) };

    /// An integer.
    fn put_int(&mut self, n: i128) -> Result<Ref, AllocError>
        ensures ok { IfOk result (λ made. Gives (seen self.old) (seen self.new) (seen self.old).now.state made (int n)) }
        ensures err { OnErr result (Stays (seen self.old) (seen self.new)) };

    /// The atom with this name.
    fn put_atom(&mut self, name: &str) -> Result<Ref, AllocError>
        ensures ok { IfOk result (λ made. Gives (seen self.old) (seen self.new) (seen self.old).now.state made (atom name.now)) }
        ensures err { OnErr result (Stays (seen self.old) (seen self.new)) };

    /// The compound with this name and these arguments.
    fn put_comp(&mut self, name: &str, args: &[Ref]) -> Result<Ref, AllocError>
        ensures stays { Stays (seen self.old) (seen self.new) }
        ensures ok { IfOk result (λ made. (ts : Trees) → AreTerms (seen self.old) args.now ts →
            IsTerm (seen self.new) made (comp name.now ts)) };

    /// The term of the variable with this number. It takes no memory.
    fn var_ref(&self, n: u64) -> Ref
        ensures { n < next (seen self.now).now.state → IsTerm (seen self.now) result (var n) };

    /// What a term is at its root, with bindings followed. No name has two numbers, so two atoms are equal exactly where
    /// their numbers are. It takes no memory.
    fn look(&self, r: Ref) -> Cell
        ensures shows { (t : Tree) → IsTerm (seen self.now) r t → IsAcyclic (bindings (seen self.now).now.state) →
            ShowsCell (seen self.now) (followed (bindings (seen self.now).now.state) t) result }
        ensures below { (q : Ref) (t : Tree) → IsTerm (seen self.now) q t → SpeaksBelow (next (seen self.now).now.state) t }
        ensures distinct { (j k : ℕ) (name : List ℕ) → IsName (seen self.now) j name → IsName (seen self.now) k name → j ≡ k };

    /// An argument of a compound, counted from 0. It takes no memory.
    fn arg(&self, r: Ref, i: u64) -> Ref
        ensures { (t u : Tree) → IsTerm (seen self.now) r t → IsAcyclic (bindings (seen self.now).now.state) →
            arg_at (followed (bindings (seen self.now).now.state) t) i ≡ Some u → IsTerm (seen self.now) result u };

    /// The name of an atom. It takes no memory.
    fn name(&self, atom: u64) -> &str
        ensures { (name : List ℕ) → IsName (seen self.now) atom name → result.now ≡ name };

    /// How many variables were made. It takes no memory.
    fn vars(&self) -> u64
        ensures { result ≡ next (seen self.now).now.state };

    /// Whether the term of a `Ref`, as it was made, holds no variable. It takes no memory and constant time.
    fn is_ground(&self, r: Ref) -> bool
        ensures { (t : Tree) → IsTerm (seen self.now) r t → (IsTrue result ↔ IsGround t) };

    /// Whether a term is the variable with this number, or a variable that is bound to it directly or through others. It
    /// takes no memory.
    fn leads_to(&self, r: Ref, v: u64) -> bool
        ensures { (t : Tree) → IsTerm (seen self.now) r t → IsAcyclic (bindings (seen self.now).now.state) →
            (IsTrue result ↔ LeadsTo (bindings (seen self.now).now.state) t v) };

    /// Binds an unbound variable to a term in which it doesn't occur. Both are followed at their roots first.
    fn bind(&mut self, v: Ref, t: Ref) -> Result<(), AllocError>
        ensures keeps { Keeps (seen self.old) (seen self.new) }
        ensures ok { IfOk result (λ _. Binds (seen self.old) (seen self.new) v t) }
        ensures err { OnErr result (Stays (seen self.old) (seen self.new)) };

    /// The domain of an unbound variable that has one.
    fn domain(&self, alloc: Global, v: Ref) -> Result<Option<Domain>, AllocError>
        ensures { IfOk result (λ found. (t : Tree) → IsTerm (seen self.now) v t → IsAcyclic (bindings (seen self.now).now.state) →
            found ≡ domain_at_root (seen self.now).now.state (followed (bindings (seen self.now).now.state) t)) };

    /// Gives an unbound variable a domain of two or more values.
    fn set_domain(&mut self, v: Ref, d: &Domain) -> Result<(), AllocError>
        ensures keeps { Keeps (seen self.old) (seen self.new) }
        ensures ok { IfOk result (λ _. Confines (seen self.old) (seen self.new) v d.now) }
        ensures err { OnErr result (Stays (seen self.old) (seen self.new)) };

    /// One more constraint.
    fn post(&mut self, c: &Constraint) -> Result<(), AllocError>
        ensures keeps { Keeps (seen self.old) (seen self.new) }
        ensures ok { IfOk result (λ _. MayPost (seen self.old).now.state c.now →
            Changes (seen self.old) (seen self.new) (with_constraint (seen self.old).now.state c.now)) }
        ensures err { OnErr result (Stays (seen self.old) (seen self.new)) };

    /// How many constraints were posted. It takes no memory.
    fn constraints(&self) -> u64
        ensures { result ≡ length (seen self.now).now.state.constraints };

    /// The constraint with this number.
    fn constraint(&self, alloc: Global, i: u64) -> Result<Constraint, AllocError>
        ensures { IfOk result (λ found. i < length (seen self.now).now.state.constraints →
            slice_get (seen self.now).now.state.constraints i ≡ Some found) };

    /// The numbers of the constraints in which this variable occurs, or one that is bound to it directly or through
    /// others; ascending.
    fn posted_on(&self, alloc: Global, v: u64) -> Result<Places, AllocError>
        ensures { IfOk result (λ found. IsAcyclic (bindings (seen self.now).now.state) → v < next (seen self.now).now.state →
            Lists (IsPostedOn (seen self.now).now.state v) found) };

    /// Makes a call an agent, by the number of the rule that applied, and answers the agent's number.
    fn suspend(&mut self, call: Ref, rule: u64, watches: &Watches) -> Result<u64, AllocError>
        ensures keeps { Keeps (seen self.old) (seen self.new) }
        ensures ok { IfOk result (λ made. Suspends (seen self.old) (seen self.new) call rule watches.now made) }
        ensures err { OnErr result (Stays (seen self.old) (seen self.new)) };

    /// How many agents were made, ended ones among them. It takes no memory.
    fn agents(&self) -> u64
        ensures { result ≡ length (seen self.now).now.state.agents };

    /// An agent; None exactly for one that has ended or wasn't made. It takes no memory.
    fn agent(&self, n: u64) -> Option<AgentView>
        ensures { ShowsAgent (seen self.now) n result };

    /// The events that an agent waits for.
    fn watches(&self, alloc: Global, n: u64) -> Result<Watches, AllocError>
        ensures { IfOk result (λ found. (a : Agent) → slice_get (seen self.now).now.state.agents n ≡ Some a →
            AreWatches (seen self.now) found a.watches) };

    /// Ends an agent.
    fn retire(&mut self, n: u64) -> Result<(), AllocError>
        ensures keeps { Keeps (seen self.old) (seen self.new) }
        ensures ok { IfOk result (λ _. n < length (seen self.old).now.state.agents →
            Changes (seen self.old) (seen self.new) (with_ended (seen self.old).now.state n)) }
        ensures err { OnErr result (Stays (seen self.old) (seen self.new)) };

    /// One more activation, to be run after those that wait.
    fn wait(&mut self, a: &Activation) -> Result<(), AllocError>
        ensures keeps { Keeps (seen self.old) (seen self.new) }
        ensures ok { IfOk result (λ _. IsActivation (seen self.old).now.state a.now →
            Changes (seen self.old) (seen self.new) (with_waiting (seen self.old).now.state
            ((seen self.old).now.state.waiting ++ a.now ∷ []))) }
        ensures err { OnErr result (Stays (seen self.old) (seen self.new)) };

    /// Takes the first activation that waits; None exactly where none waits.
    fn take_waiting(&mut self) -> Result<Option<Activation>, AllocError>
        ensures ok { IfOk result (TakesFirst (seen self.old) (seen self.new)) }
        ensures err { OnErr result (Stays (seen self.old) (seen self.new)) };

    /// Remembers what the store holds.
    fn mark(&mut self) -> Result<Self::Mark, AllocError>
        ensures ok { IfOk result (Marks order (seen self.old) (seen self.new)) }
        ensures err { OnErr result (Stays (seen self.old) (seen self.new)) };

    /// Brings back what the store held at a mark that was made at or before the present state and not undone past. It
    /// takes no memory.
    fn undo(&mut self, m: &Self::Mark)
        ensures { IsGood (seen self.old) m.now → Returns order (seen self.old) (seen self.new) m.now };

    /// The variables that were unbound at a mark and are bound now or have another domain; ascending, each once.
    fn changed_since(&self, alloc: Global, m: &Self::Mark) -> Result<Places, AllocError>
        ensures { IfOk result (λ found. IsGood (seen self.now) m.now →
            Lists (HasChanged ((seen self.now).at_mark m.now).state (seen self.now).now.state) found) };

    /// The domain that a variable had at a mark at which it was unbound.
    fn domain_at(&self, alloc: Global, m: &Self::Mark, v: u64) -> Result<Option<Domain>, AllocError>
        ensures { IfOk result (λ found. IsGood (seen self.now) m.now → IsUnbound ((seen self.now).at_mark m.now).state v →
            found ≡ domain_of ((seen self.now).at_mark m.now).state v) };

    /// The term as it is written down, with bindings replaced throughout. `TooLarge` exactly where it has more than
    /// 16,777,216 cells.
    fn read_term(&self, alloc: Global, r: Ref) -> Result<Term, ReadStop>
        ensures { (t : Tree) → IsTerm (seen self.now) r t → IsAcyclic (bindings (seen self.now).now.state) →
            ShowsRead (value (bindings (seen self.now).now.state) t) result };
}
