//! A store over raw words.
ghost use Rattle.std.specs.Prelude.{◌≡◌, ◌↔◌, ℕ, ◌<◌, List, [], Some, length, min, slice_get, IfOk, OnErr, IsTrue};
ghost use Rattle.pi_terms.specs.Tree.{Tree, Trees, var, int, atom, comp, arg_at};
ghost use Rattle.pi_terms.specs.Variables.{IsGround};
ghost use Rattle.pi_constraints.specs.Value.{IsAcyclic, value};
ghost use Rattle.pi_constraints.specs.State.{Agent, SpeaksBelow, MayPost, empty_state, bindings, next, followed, LeadsTo, domain_at_root, with_new, with_constraint, with_ended};
ghost use Rattle.pi_constraints.specs.State.{domain_of as state_domain};
ghost use Rattle.pi_constraints.specs.Store.{IsGood, IsTerm, AreTerms, AreWatches, IsName, ShowsCell, ShowsAgent, Keeps, Stays, Changes, Gives, Binds, Confines, Suspends, Marks, Returns, Lists, IsPostedOn, HasChanged, ShowsRead};
ghost use Rattle.pi_constraints.specs.Stored.{stored};
ghost use Rattle.pi_constraints.specs.Domain.{IsDomain};
ghost use Rattle.pi_store.specs.Holding.{seen, order};

mod beside;
mod waiting;

use crate::bind::bind_variable;
use crate::domains::{confine, domain_by, domain_of, span_by, span_count_by};
use crate::mark::RawMark;
use crate::named::numbered;
use crate::post::post_constraint;
use crate::posted::posted_on;
use crate::read::{Reading, read};
use crate::refs::{has, has_events, known};
use crate::since::changed_since;
use crate::walk;
use pi_constraints::{AgentView, Cell, Constraint, Domain, Places, ReadStop, Ref, Span, Watches};
use pi_region::{Table, Trailed, Words};
use pi_store_blocks as raw;
use pi_store_blocks::{
    RawNames, add_agent, agent_call, agent_end, agent_rule, end_agent, is_alive,
    numbered_constraint, read_watches,
};
use pi_terms::Term;
use std::alloc::{AllocError, Global};
use std::marker::Model;

/// How many variables constraints tell apart. Posting one where there are more is want of memory.
const MOST_IN_CONSTRAINTS: usize = 288_230_376_151_711_744;

/// A store as words of one region, with a trail by which each change is taken back: a change costs what it changes, and a
/// return what was changed since.
#[derive(Drop)]
pub struct RawStore {
    alloc: Global,
    names: RawNames,
    words: Trailed,
}

impl Model for RawStore {
    ghost use Rattle.pi_store.specs.Held.{Holding};

    ghost Value = { Holding };

    ghost use Rattle.pi_store.specs.Sound.{IsSound};

    ghost view = { λ s. record { names = s.names; image = s.words } };

    ghost invariant = { λ s. IsSound s.names s.words };
}

impl RawStore {
    /// The empty state, in a region without words. It takes no memory.
    pub fn new(alloc: Global, region: Words) -> RawStore
        requires { region.words ≡ [] }
        ensures { (seen result).now.state ≡ empty_state }
    {
        RawStore {
            alloc,
            names: RawNames::new(alloc),
            words: Trailed::new(alloc, region),
        }
    }

    /// The region, emptied, with its block.
    pub fn into_words(self) -> Words
        ensures { result.words ≡ [] }
    {
        let RawStore { words, .. } = self;
        words.into_words()
    }

    /// How many words the region has.
    pub fn length(&self) -> usize
        ensures { result ≡ length self.now.image.region }
    {
        self.words.len()
    }

    /// A new variable.
    pub fn new_var(&mut self) -> Result<Ref, AllocError>
        ensures ok { IfOk result (λ made. Gives (seen self.old) (seen self.new) (with_new (seen self.old).now.state) made
            (var (next (seen self.old).now.state))) }
        ensures err { OnErr result (Stays (seen self.old) (seen self.new)) }
    {
        let number = self.words.count(Table::Variables) as u64;
        self.words.push(Table::Variables, 0)?;
        Ok(raw::var_ref(number))
    }

    /// An integer.
    pub fn put_int(&mut self, n: i128) -> Result<Ref, AllocError>
        ensures ok { IfOk result (λ made. Gives (seen self.old) (seen self.new) (seen self.old).now.state made (int n)) }
        ensures err { OnErr result (Stays (seen self.old) (seen self.new)) }
    {
        let made = raw::put_int(&mut self.words, n)?;
        Ok(made)
    }

    /// The atom with this name.
    pub fn put_atom(&mut self, name: &str) -> Result<Ref, AllocError>
        ensures ok { IfOk result (λ made. Gives (seen self.old) (seen self.new) (seen self.old).now.state made (atom name.now)) }
        ensures err { OnErr result (Stays (seen self.old) (seen self.new)) }
    {
        let number = numbered(&mut self.names, &mut self.words, self.alloc, name)?;
        Ok(raw::put_atom(number))
    }

    /// The compound with this name and these arguments.
    pub fn put_comp(&mut self, name: &str, args: &[Ref]) -> Result<Ref, AllocError>
        ensures stays { Stays (seen self.old) (seen self.new) }
        ensures ok { IfOk result (λ made. (ts : Trees) → AreTerms (seen self.old) args.now ts →
            IsTerm (seen self.new) made (comp name.now ts)) }
    {
        let number = numbered(&mut self.names, &mut self.words, self.alloc, name)?;
        let args = known(&self.names, &self.words, args);
        let made = raw::put_compound(&mut self.words, number, args)?;
        Ok(made)
    }

    /// The term of the variable with this number. It takes no memory.
    pub fn var_ref(&self, n: u64) -> Ref
        ensures { n < next (seen self.now).now.state → IsTerm (seen self.now) result (var n) }
    {
        let _count = self.words.count(Table::Variables);
        raw::var_ref(n)
    }

    /// What a term is at its root, with bindings followed. No name has two numbers, so two atoms are equal exactly where
    /// their numbers are. It takes no memory.
    pub fn look(&self, r: Ref) -> Cell
        ensures shows { (t : Tree) → IsTerm (seen self.now) r t → IsAcyclic (bindings (seen self.now).now.state) →
            ShowsCell (seen self.now) (followed (bindings (seen self.now).now.state) t) result }
        ensures below { (q : Ref) (t : Tree) → IsTerm (seen self.now) q t → SpeaksBelow (next (seen self.now).now.state) t }
        ensures distinct { (j k : ℕ) (name : List ℕ) → IsName (seen self.now) j name → IsName (seen self.now) k name → j ≡ k }
    {
        let last = walk::followed(&self.words, r);
        raw::cell(&self.words, last)
    }

    /// An argument of a compound, counted from 0. It takes no memory.
    pub fn arg(&self, r: Ref, i: u64) -> Ref
        ensures { (t u : Tree) → IsTerm (seen self.now) r t → IsAcyclic (bindings (seen self.now).now.state) →
            arg_at (followed (bindings (seen self.now).now.state) t) i ≡ Some u → IsTerm (seen self.now) result u }
    {
        let last = walk::followed(&self.words, r);
        raw::arg(&self.words, last, i)
    }

    /// The name of an atom. It takes no memory.
    pub fn name(&self, atom: u64) -> &str
        ensures { (name : List ℕ) → IsName (seen self.now) atom name → result.now ≡ name }
    {
        self.names.name(atom)
    }

    /// How many variables were made. It takes no memory.
    pub fn vars(&self) -> u64
        ensures { result ≡ next (seen self.now).now.state }
    {
        self.words.count(Table::Variables) as u64
    }

    /// Whether the term of a `Ref`, as it was made, holds no variable. It takes no memory and constant time.
    pub fn is_ground(&self, r: Ref) -> bool
        ensures { (t : Tree) → IsTerm (seen self.now) r t → (IsTrue result ↔ IsGround t) }
    {
        raw::is_ground(r)
    }

    /// Whether a term is the variable with this number, or a variable that is bound to it directly or through others. It
    /// takes no memory.
    pub fn leads_to(&self, r: Ref, v: u64) -> bool
        ensures { (t : Tree) → IsTerm (seen self.now) r t → IsAcyclic (bindings (seen self.now).now.state) →
            (IsTrue result ↔ LeadsTo (bindings (seen self.now).now.state) t v) }
    {
        walk::leads_to(&self.words, r, v)
    }

    /// Binds an unbound variable to a term in which it doesn't occur. Both are followed at their roots first.
    pub fn bind(&mut self, v: Ref, t: Ref) -> Result<(), AllocError>
        ensures keeps { Keeps (seen self.old) (seen self.new) }
        ensures ok { IfOk result (λ _. Binds (seen self.old) (seen self.new) v t) }
        ensures err { OnErr result (Stays (seen self.old) (seen self.new)) }
    {
        if !has(&self.names, &self.words, t) {
            return Ok(());
        }
        let Some(n) = walk::free_variable(&self.words, v) else {
            return Ok(());
        };
        let to = walk::followed(&self.words, t);
        bind_variable(&mut self.words, n, to)?;
        Ok(())
    }

    /// The domain of an unbound variable that has one.
    pub fn domain(&self, alloc: Global, v: Ref) -> Result<Option<Domain>, AllocError>
        ensures { IfOk result (λ found. (t : Tree) → IsTerm (seen self.now) v t →
            found ≡ domain_at_root (seen self.now).now.state (followed (bindings (seen self.now).now.state) t)) }
    {
        let found = domain_of(alloc, &self.words, v)?;
        Ok(found)
    }

    /// How many spans the variable with this number has; none where it has no domain. It looks once at each, and takes no memory.
    pub fn span_count(&self, n: u64) -> usize
        ensures count { result ≡ length (stored (seen self.now).now.state n) }
        ensures domain { IsDomain (stored (seen self.now).now.state n) }
    {
        span_count_by(&self.words, self.words.get(Table::Variables, n as usize))
    }

    /// The span of a variable with this number, counted from 0. It takes no memory.
    pub fn span(&self, n: u64, k: usize) -> Span
        ensures { k < length (stored (seen self.now).now.state n) → slice_get (stored (seen self.now).now.state n) k ≡ Some result }
    {
        span_by(&self.words, self.words.get(Table::Variables, n as usize), k)
    }

    /// Gives an unbound variable a domain of two or more values.
    pub fn set_domain(&mut self, v: Ref, d: &Domain) -> Result<(), AllocError>
        ensures keeps { Keeps (seen self.old) (seen self.new) }
        ensures ok { IfOk result (λ _. Confines (seen self.old) (seen self.new) v d.now) }
        ensures err { OnErr result (Stays (seen self.old) (seen self.new)) }
    {
        let Some(n) = walk::free_variable(&self.words, v) else {
            return Ok(());
        };
        confine(&mut self.words, n, d)?;
        Ok(())
    }

    /// The domain that a variable had at a mark at which it was unbound. It costs what changed since.
    pub fn domain_at(
        &self,
        alloc: Global,
        m: &RawMark,
        v: u64,
    ) -> Result<Option<Domain>, AllocError>
        ensures { IfOk result (λ found. IsGood (seen self.now) m.now → found ≡ state_domain ((seen self.now).at_mark m.now).state v) }
    {
        let word = self.words.word_at(m.length, v as usize);
        let found = domain_by(alloc, &self.words, word)?;
        Ok(found)
    }

    /// One more constraint. Nothing is posted where a variable in it wasn't made.
    pub fn post(&mut self, c: &Constraint) -> Result<(), AllocError>
        ensures keeps { Keeps (seen self.old) (seen self.new) }
        ensures ok { IfOk result (λ _. MayPost (seen self.old).now.state c.now →
            Changes (seen self.old) (seen self.new) (with_constraint (seen self.old).now.state c.now)) }
        ensures err { OnErr result (Stays (seen self.old) (seen self.new)) }
    {
        if self.words.count(Table::Variables) > MOST_IN_CONSTRAINTS {
            return Err(AllocError);
        }
        let _posted = post_constraint(self.alloc, &mut self.words, c)?;
        Ok(())
    }

    /// How many constraints were posted. It takes no memory.
    pub fn constraints(&self) -> u64
        ensures { result ≡ length (seen self.now).now.state.constraints }
    {
        self.words.count(Table::Constraints) as u64
    }

    /// The constraint with this number.
    pub fn constraint(&self, alloc: Global, i: u64) -> Result<Constraint, AllocError>
        ensures { IfOk result (λ found. i < length (seen self.now).now.state.constraints →
            slice_get (seen self.now).now.state.constraints i ≡ Some found) }
    {
        let found = numbered_constraint(alloc, &self.words, i)?;
        Ok(found)
    }

    /// The numbers of the constraints in which this variable occurs, or one that is bound to it directly or through
    /// others; ascending. It costs the constraints that were posted on it.
    pub fn posted_on(&self, alloc: Global, v: u64) -> Result<Places, AllocError>
        ensures { IfOk result (λ found. IsAcyclic (bindings (seen self.now).now.state) →
            Lists (IsPostedOn (seen self.now).now.state v) found) }
    {
        let found = posted_on(alloc, &self.words, v)?;
        Ok(found)
    }

    /// Makes a call an agent, by the number of the rule that applied, and answers the agent's number.
    pub fn suspend(&mut self, call: Ref, rule: u64, watches: &Watches) -> Result<u64, AllocError>
        ensures keeps { Keeps (seen self.old) (seen self.new) }
        ensures ok { IfOk result (λ made. Suspends (seen self.old) (seen self.new) call rule watches.now made) }
        ensures err { OnErr result (Stays (seen self.old) (seen self.new)) }
    {
        let number = self.words.count(Table::Agents) as u64;
        if !has(&self.names, &self.words, call) {
            return Ok(number);
        }
        if !has_events(&self.names, &self.words, watches.as_slice()) {
            return Ok(number);
        }
        add_agent(&mut self.words, call, rule, watches)?;
        Ok(number)
    }

    /// How many agents were made, ended ones among them. It takes no memory.
    pub fn agents(&self) -> u64
        ensures { result ≡ length (seen self.now).now.state.agents }
    {
        self.words.count(Table::Agents) as u64
    }

    /// An agent; None exactly for one that has ended or wasn't made. It takes no memory.
    pub fn agent(&self, n: u64) -> Option<AgentView>
        ensures { ShowsAgent (seen self.now) n result }
    {
        if !is_alive(&self.words, n) {
            return None;
        }
        let end = agent_end(&self.words, n);
        Some(AgentView {
            call: agent_call(&self.words, end),
            rule: agent_rule(&self.words, end),
        })
    }

    /// The events that an agent waits for.
    pub fn watches(&self, alloc: Global, n: u64) -> Result<Watches, AllocError>
        ensures { IfOk result (λ found. (a : Agent) → slice_get (seen self.now).now.state.agents n ≡ Some a →
            AreWatches (seen self.now) found a.watches) }
    {
        let watches = read_watches(alloc, &self.words, agent_end(&self.words, n))?;
        Ok(watches)
    }

    /// Ends an agent.
    pub fn retire(&mut self, n: u64) -> Result<(), AllocError>
        ensures keeps { Keeps (seen self.old) (seen self.new) }
        ensures ok { IfOk result (λ _. Changes (seen self.old) (seen self.new) (with_ended (seen self.old).now.state n)) }
        ensures err { OnErr result (Stays (seen self.old) (seen self.new)) }
    {
        end_agent(&mut self.words, n)?;
        Ok(())
    }

    /// Remembers what the store holds. It takes no memory.
    pub fn mark_now(&self) -> RawMark
        ensures { Marks order (seen self.now) (seen self.now) result }
    {
        RawMark {
            length: self.words.len(),
            beside: None,
        }
    }

    /// Brings back what the store held at a mark that was made at or before the present state and not undone past, and the
    /// length that the region had then. It takes no memory.
    pub fn undo(&mut self, m: &RawMark)
        ensures returns { IsGood (seen self.old) m.now → Returns order (seen self.old) (seen self.new) m.now }
        ensures cut { length self.new.image.region ≡ min m.now.length (length self.old.image.region) }
    {
        self.words.undo(m.length);
    }

    /// The variables that were unbound at a mark and are bound now or have another domain; ascending, each once. It costs
    /// what changed since.
    pub fn changed_since(&self, alloc: Global, m: &RawMark) -> Result<Places, AllocError>
        ensures { IfOk result (λ found. IsGood (seen self.now) m.now →
            Lists (HasChanged ((seen self.now).at_mark m.now).state (seen self.now).now.state) found) }
    {
        let found = changed_since(alloc, &self.words, m.length)?;
        Ok(found)
    }

    /// The term as it is written down, with bindings replaced throughout. `TooLarge` exactly where it has more than
    /// 16,777,216 cells.
    pub fn read_term(&self, alloc: Global, r: Ref) -> Result<Term, ReadStop>
        ensures { (t : Tree) → IsTerm (seen self.now) r t → IsAcyclic (bindings (seen self.now).now.state) →
            ShowsRead (value (bindings (seen self.now).now.state) t) result }
    {
        read(alloc, &self.names, &self.words, Reading::Value, r)
    }
}
