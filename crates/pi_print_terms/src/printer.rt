//! Terms, written node by node in prefix order.
ghost use Rattle.std.specs.Prelude.{◌≡◌, ◌++◌, ◌+◌, ◌≤◌, ◌&&◌, not, false, List, ℕ, IfOk, OnOk, MatchOption, vec_len};
ghost use Rattle.std.specs.Char.{encode_utf8};
ghost use Rattle.std.specs.String.{string_bytes};
ghost use Rattle.pi_terms.specs.Tree.{comp, tree_count, drop_trees, cells_all};
ghost use Rattle.pi_terms.specs.TermCells.{take_trees};
ghost use Rattle.pi_syntax.specs.PrintAtom.{atom_text};
ghost use Rattle.pi_syntax.specs.PrintTerm.{written, variable_text, compound_text, arguments_text, cell_is_characters};
ghost use Rattle.pi_print_terms.specs.Ahead.{built, behind, count_of};
ghost use Rattle.pi_print_terms.specs.Roots.{AreCharacters};
ghost use Rattle.pi_print_terms.specs.Tasks.{task_text, task_left, list_text, to_do, Begins};
ghost use Rattle.pi_print_terms.specs.declared.printer.Task.TheVariants.{Value, Rest, Arguments};

use crate::atoms::write_quoted;
use crate::characters::{Characters, is_cell, is_nil, read_characters};
use crate::nodes::Nodes;
use pi_terms::{Numbers, Term, TermHead};
use std::alloc::{AllocError, Global};

/// What is still to be written of a term.
#[derive(Clone, Copy)]
pub enum Task {
    /// The next term.
    Value,
    /// What follows an item of a list, where the next term is the rest of the list.
    Rest,
    /// What follows an argument: so many more, the next terms, and the sign that closes the compound.
    Arguments(usize, char),
}

/// All that is still to be written: the last task comes first.
#[derive(Drop)]
pub struct Todo<'t> {
    pub ahead: Nodes<'t>,
    pub tasks: Vec<Task>,
}

/// A printer of terms whose variables have numbers, in quoted or in plain form.
pub struct Printer {
    pub alloc: Global,
    pub is_quoted: bool,
    pub numbers: Numbers,
}

// By hand, so that letting one go is a call and not its parts at each way out.
impl Drop for Printer {
    fn drop(self) {
        let Printer {
            alloc: _,
            is_quoted: _,
            numbers: _,
        } = self;
    }
}

impl Printer {
    /// Writes a term.
    pub fn term(&self, term: &Term, out: &mut String) -> Result<(), AllocError>
        ensures ok { IfOk result (λ _. string_bytes out.new ≡
            string_bytes out.old ++ written self.now.is_quoted self.now.numbers term.now) }
    {
        let mut todo = Todo {
            ahead: Nodes::new(term),
            tasks: Vec::new(self.alloc),
        };
        todo.tasks.push(Task::Value)?;
        while let Some(task) = todo.tasks.pop() {
            self.step(task, &mut todo, out)?;
        }
        Ok(())
    }

    /// Writes what a task begins with, and leaves the rest of it to be done.
    fn step(&self, task: Task, todo: &mut Todo<'_>, out: &mut String) -> Result<(), AllocError>
        ensures ok { IfOk result (λ _. Begins self.now (string_bytes out.old)
            (task_text self.now.is_quoted self.now.numbers task todo.old.ahead) (record todo.old { ahead = task_left task todo.old.ahead })
            (string_bytes out.new) todo.new) }
        ensures less { OnOk result (to_do todo.new ≤ to_do todo.old) }
    {
        match task {
            Task::Value => self.next_value(todo, out),
            Task::Rest => self.rest(todo, out),
            Task::Arguments(count, close) => self.arguments(count, close, todo, out),
        }
    }

    /// Writes the beginning of the next term.
    fn next_value(&self, todo: &mut Todo<'_>, out: &mut String) -> Result<(), AllocError>
        ensures ok { IfOk result (λ _. Begins self.now (string_bytes out.old)
            (task_text self.now.is_quoted self.now.numbers Value todo.old.ahead) (record todo.old { ahead = drop_trees 1 todo.old.ahead })
            (string_bytes out.new) todo.new) }
        ensures less { OnOk result (to_do todo.new ≤ to_do todo.old) }
    {
        let Some(head) = todo.ahead.next() else {
            return Ok(());
        };
        self.value(head, todo, out)?;
        Ok(())
    }

    /// Writes what follows an item of a list.
    fn rest(&self, todo: &mut Todo<'_>, out: &mut String) -> Result<(), AllocError>
        ensures ok { IfOk result (λ _. Begins self.now (string_bytes out.old)
            (task_text self.now.is_quoted self.now.numbers Rest todo.old.ahead) (record todo.old { ahead = drop_trees 1 todo.old.ahead })
            (string_bytes out.new) todo.new) }
        ensures less { OnOk result (to_do todo.new ≤ to_do todo.old) }
    {
        let Some(head) = todo.ahead.next() else {
            return Ok(());
        };
        if is_nil(head) {
            out.push(']')?;
            return Ok(());
        }
        if is_cell(head) {
            out.push(',')?;
            todo.tasks.push(Task::Rest)?;
            todo.tasks.push(Task::Value)?;
            return Ok(());
        }
        out.push('|')?;
        todo.tasks.push(Task::Arguments(0, ']'))?;
        self.value(head, todo, out)?;
        Ok(())
    }

    /// Writes what follows an argument of a compound.
    fn arguments(
        &self,
        count: usize,
        close: char,
        todo: &mut Todo<'_>,
        out: &mut String,
    ) -> Result<(), AllocError>
        ensures ok { IfOk result (λ _. Begins self.now (string_bytes out.old)
            (task_text self.now.is_quoted self.now.numbers (Arguments count close) todo.old.ahead)
            (record todo.old { ahead = drop_trees count todo.old.ahead }) (string_bytes out.new) todo.new) }
        ensures less { OnOk result (to_do todo.new ≤ to_do todo.old) }
    {
        if count == 0 {
            out.push(close)?;
            return Ok(());
        }
        let Some(head) = todo.ahead.next() else {
            out.push(close)?;
            return Ok(());
        };
        out.push(',')?;
        todo.tasks.push(Task::Arguments(count - 1, close))?;
        self.value(head, todo, out)?;
        Ok(())
    }

    /// Writes the beginning of a term, whose root was read.
    fn value(
        &self,
        head: TermHead<'_>,
        todo: &mut Todo<'_>,
        out: &mut String,
    ) -> Result<(), AllocError>
        requires { count_of head ≤ tree_count todo.old.ahead }
        ensures ok { IfOk result (λ _. Begins self.now (string_bytes out.old)
            (written self.now.is_quoted self.now.numbers (built head.entry todo.old.ahead))
            (record todo.old { ahead = behind head.entry todo.old.ahead }) (string_bytes out.new) todo.new) }
        ensures fewer { OnOk result (cells_all todo.new.ahead ≤ cells_all todo.old.ahead) }
        ensures tasks { OnOk result (vec_len todo.new.tasks ≤ vec_len todo.old.tasks + 2) }
    {
        match head {
            TermHead::Var(n) => {
                self.var(n, out)?;
                Ok(())
            }
            TermHead::Int(n) => {
                write!(out, "{n}")?;
                Ok(())
            }
            TermHead::Atom(name) => {
                self.atom(name, out)?;
                Ok(())
            }
            TermHead::Comp(name, count) => self.compound(name, count, todo, out),
        }
    }

    /// Writes the beginning of a compound, whose root was read.
    fn compound(
        &self,
        name: &str,
        count: usize,
        todo: &mut Todo<'_>,
        out: &mut String,
    ) -> Result<(), AllocError>
        requires { count ≤ tree_count todo.old.ahead }
        ensures ok { IfOk result (λ _. Begins self.now (string_bytes out.old)
            (written self.now.is_quoted self.now.numbers (comp name.now (take_trees count todo.old.ahead)))
            (record todo.old { ahead = drop_trees count todo.old.ahead }) (string_bytes out.new) todo.new) }
        ensures fewer { OnOk result (cells_all todo.new.ahead ≤ cells_all todo.old.ahead) }
        ensures tasks { OnOk result (vec_len todo.new.tasks ≤ vec_len todo.old.tasks + 2) }
    {
        if is_cell(TermHead::Comp(name, count)) {
            self.list(todo, out)?;
            return Ok(());
        }
        self.structure(name, count, todo, out)?;
        Ok(())
    }

    /// Writes the beginning of a compound that is no list cell, and whose root was read.
    fn structure(
        &self,
        name: &str,
        count: usize,
        todo: &mut Todo<'_>,
        out: &mut String,
    ) -> Result<(), AllocError>
        requires { count ≤ tree_count todo.old.ahead }
        ensures ok { IfOk result (λ _. Begins self.now (string_bytes out.old)
            (compound_text self.now.is_quoted name.now (arguments_text self.now.is_quoted self.now.numbers
            (take_trees count todo.old.ahead))) (record todo.old { ahead = drop_trees count todo.old.ahead })
            (string_bytes out.new) todo.new) }
        ensures fewer { OnOk result (cells_all todo.new.ahead ≤ cells_all todo.old.ahead) }
        ensures tasks { OnOk result (vec_len todo.new.tasks ≤ vec_len todo.old.tasks + 2) }
    {
        let close = self.open(name, out)?;
        if count == 0 {
            out.push(close)?;
            return Ok(());
        }
        todo.tasks.push(Task::Arguments(count - 1, close))?;
        todo.tasks.push(Task::Value)?;
        Ok(())
    }

    /// Writes the beginning of a list, whose first cell was read.
    fn list(&self, todo: &mut Todo<'_>, out: &mut String) -> Result<(), AllocError>
        requires { 2 ≤ tree_count todo.old.ahead }
        ensures ok { IfOk result (λ _. Begins self.now (string_bytes out.old)
            (list_text self.now.is_quoted self.now.numbers (take_trees 2 todo.old.ahead))
            (record todo.old { ahead = drop_trees 2 todo.old.ahead }) (string_bytes out.new) todo.new) }
        ensures fewer { OnOk result (cells_all todo.new.ahead ≤ cells_all todo.old.ahead) }
        ensures tasks { OnOk result (vec_len todo.new.tasks ≤ vec_len todo.old.tasks + 2) }
    {
        if let Some(found) = self.characters(&todo.ahead)? {
            todo.ahead = found.behind;
            out.push_str(found.text.as_str())?;
            return Ok(());
        }
        out.push('[')?;
        todo.tasks.push(Task::Rest)?;
        todo.tasks.push(Task::Value)?;
        Ok(())
    }

    /// The characters of the list whose first cell was read, where it is written as these.
    fn characters<'t>(&self, ahead: &Nodes<'t>) -> Result<Option<Characters<'t>>, AllocError>
        requires { 2 ≤ tree_count ahead.now }
        ensures ok { IfOk result (λ found. MatchOption found
            ((not self.now.is_quoted && cell_is_characters (take_trees 2 ahead.now)) ≡ false)
            (λ f. (self.now.is_quoted ≡ false) × AreCharacters ahead.now f)) }
    {
        if self.is_quoted {
            return Ok(None);
        }
        read_characters(self.alloc, ahead)
    }

    /// Writes the name of a compound that is no list cell and the sign that opens it; gives the sign that closes it.
    fn open(&self, name: &str, out: &mut String) -> Result<char, AllocError>
        ensures ok { IfOk result (λ close. (inner : List ℕ) →
            string_bytes out.new ++ (inner ++ encode_utf8 close) ≡
            string_bytes out.old ++ compound_text self.now.is_quoted name.now inner) }
    {
        if name == "{}" {
            out.push('{')?;
            return Ok('}');
        }
        self.atom(name, out)?;
        out.push('(')?;
        Ok(')')
    }

    /// Writes a variable.
    pub fn var(&self, var: u64, out: &mut String) -> Result<(), AllocError>
        ensures ok { IfOk result (λ _. string_bytes out.new ≡ string_bytes out.old ++ variable_text self.now.numbers var) }
    {
        let number = self.numbers.number_of(var);
        write!(out, "_{number}")
    }

    #[tactic(auto, unfolding(pi_syntax::specs::PrintAtom::atom_text))]
    fn atom(&self, name: &str, out: &mut String) -> Result<(), AllocError>
        ensures ok { IfOk result (λ _. string_bytes out.new ≡ string_bytes out.old ++ atom_text self.now.is_quoted name.now) }
    {
        if self.is_quoted {
            write_quoted(self.alloc, name, out)
        } else {
            out.push_str(name)
        }
    }
}
