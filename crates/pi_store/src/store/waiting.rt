//! What waits in a store.
ghost use Rattle.std.specs.Prelude.{◌≡◌, ◌<◌, ◌^◌, [], ◌∷◌, ◌++◌, length, IfOk, OnErr};
ghost use Rattle.pi_terms.specs.Tree.{Tree};
ghost use Rattle.pi_constraints.specs.State.{IsActivation, SpeaksBelow, next, with_waiting};
ghost use Rattle.pi_constraints.specs.Store.{IsTerm, Keeps, Stays, Changes, TakesFirst};
ghost use Rattle.pi_store_blocks.specs.Built.{PutsNode, PutsCompound};
ghost use Rattle.pi_store.specs.Holding.{seen};
ghost use Rattle.pi_store.specs.Waiting.{activation_of, activation_tree, HasValueBelow};

use crate::heads::{count_taken, taken_in};
use crate::refs::has;
use crate::store::RawStore;
use crate::waiting::activation;
use pi_constraints::{Activation, Ref};
use pi_region::Table;
use pi_store_blocks::take_last;
use pi_terms::{Term, TermHead};
use std::alloc::{AllocError, Global};

/// The name of the term that an activation is.
const NAME: &str = "[|]";

/// The most cells of the value of an activation, as of a term that is read. The number is own.
const MOST_CELLS: usize = 16777216;

impl RawStore {
    /// One more activation, to be run after those that wait. More than 16,777,216 cells of its value are want of memory.
    pub fn wait(&mut self, a: &Activation) -> Result<(), AllocError>
        ensures keeps { Keeps (seen self.old) (seen self.new) }
        ensures ok { IfOk result (λ _. IsActivation (seen self.old).now.state a.now →
            Changes (seen self.old) (seen self.new) (with_waiting (seen self.old).now.state
            ((seen self.old).now.state.waiting ++ a.now ∷ []))) }
        ensures err { OnErr result (Stays (seen self.old) (seen self.new)) }
    {
        let made = self.put_activation(a.agent, a.watch, &a.value)?;
        self.add_waiting(made)?;
        Ok(())
    }

    /// Takes the first activation that waits; None exactly where none waits.
    pub fn take_waiting(&mut self) -> Result<Option<Activation>, AllocError>
        ensures ok { IfOk result (TakesFirst (seen self.old) (seen self.new)) }
        ensures err { OnErr result (Stays (seen self.old) (seen self.new)) }
    {
        let taken = taken_in(&self.words);
        if taken >= self.words.count(Table::Waiting) as u64 {
            return Ok(None);
        }
        let word = self.words.get(Table::Waiting, taken as usize);
        let first = activation(self.alloc, &self.names, &self.words, word)?;
        match count_taken(&mut self.words, taken) {
            Ok(()) => Ok(Some(first)),
            Err(refused) => {
                drop(first);
                Err(refused)
            }
        }
    }

    /// A term that is an activation waits from now on. What is no term doesn't.
    fn add_waiting(&mut self, made: Ref) -> Result<(), AllocError>
        ensures keeps { Keeps (seen self.old) (seen self.new) }
        ensures ok { IfOk result (λ _. (t : Tree) → IsTerm (seen self.old) made t →
            Changes (seen self.old) (seen self.new) (with_waiting (seen self.old).now.state
            ((seen self.old).now.state.waiting ++ activation_of t ∷ []))) }
        ensures err { OnErr result (Stays (seen self.old) (seen self.new)) }
    {
        if !has(&self.names, &self.words, made) {
            return Ok(());
        }
        self.words.push(Table::Waiting, made.number)?;
        Ok(())
    }

    /// An activation as a term.
    fn put_activation(
        &mut self,
        agent: u64,
        watch: u64,
        value: &Option<Term>,
    ) -> Result<Ref, AllocError>
        ensures stays { Stays (seen self.old) (seen self.new) }
        ensures small { (agent < 2 ^ 64) × (watch < 2 ^ 64) }
        ensures ok { IfOk result (λ made. HasValueBelow (next (seen self.old).now.state) value.now →
            IsTerm (seen self.new) made (activation_tree agent watch value.now)) }
    {
        let agent = self.put_int(i128::from(agent))?;
        let watch = self.put_int(i128::from(watch))?;
        match value {
            None => Ok(self.put_comp(NAME, &[agent, watch])?),
            Some(value) => {
                let value = self.put_term(value)?;
                Ok(self.put_comp(NAME, &[agent, watch, value])?)
            }
        }
    }

    /// A term as it is written down.
    fn put_term(&mut self, t: &Term) -> Result<Ref, AllocError>
        ensures stays { Stays (seen self.old) (seen self.new) }
        ensures ok { IfOk result (λ made. SpeaksBelow (next (seen self.old).now.state) t.now → IsTerm (seen self.new) made t.now) }
    {
        if t.cells() > MOST_CELLS {
            return Err(AllocError);
        }
        let mut built = Vec::new(self.alloc);
        let mut i = t.cells();
        while i > 0 {
            i -= 1;
            let made = self.put_node(t.head_at(i), &mut built)?;
            built.push(made)?;
        }
        Ok(built[0])
    }

    /// A term by what it is at its root, once its arguments were put, the first one last. It takes them off.
    fn put_node(&mut self, head: TermHead<'_>, built: &mut Vec<Ref>) -> Result<Ref, AllocError>
        ensures stays { Stays (seen self.old) (seen self.new) }
        ensures ok { IfOk result (λ made. PutsNode (seen self.old) (seen self.new) head.entry built.old.items built.new.items made) }
    {
        match head {
            TermHead::Var(n) => Ok(self.var_ref(n)),
            TermHead::Int(n) => Ok(self.put_int(n)?),
            TermHead::Atom(name) => Ok(self.put_atom(name)?),
            TermHead::Comp(name, count) => Ok(self.put_built(name, count, built)?),
        }
    }

    /// A compound whose arguments were put last, the first one last of all. It takes them off.
    fn put_built(
        &mut self,
        name: &str,
        count: usize,
        built: &mut Vec<Ref>,
    ) -> Result<Ref, AllocError>
        ensures stays { Stays (seen self.old) (seen self.new) }
        ensures ok { IfOk result (λ made. PutsCompound (seen self.old)
            (seen self.new) name.now count built.old.items built.new.items made) }
    {
        let args = take_last(self.alloc, built, count)?;
        let made = self.put_comp(name, &args)?;
        Ok(made)
    }
}
