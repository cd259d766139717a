//! Where an expression stands.
ghost use Rattle.std.specs.Prelude.{◌≡◌, ◌+◌, IfOk};
ghost use Rattle.pi_syntax.specs.ExpTree.{exp_tree};
ghost use Rattle.pi_syntax.specs.ExpLists.{exps_of};
ghost use Rattle.pi_meaning.specs.OverNames.Texts.{places, places_all, places_of_branches};
ghost use Rattle.pi_rewrite_slots.specs.Indexed.{names_in};
ghost use Rattle.pi_rewrite_slots.specs.Branches.{branches_in};
ghost use Rattle.pi_rewrite_spec.specs.Sites.{helpers_in as helpers_of, helpers_in_all as helpers_of_all, helpers_in_branches as helpers_of_branches, behind_site, behind_exp, inside as inside_of};
ghost use Rattle.pi_rewrite_sites.specs.OwnNames.{own_name};
ghost use Rattle.pi_rewrite_sites.specs.SiteOf.{site_of};

use crate::counts::{helpers_in, helpers_in_all, helpers_in_branches};
use crate::names::put_behind;
use crate::naming::Naming;
use crate::numbers::together;
use crate::places::{push_names, push_names_of_all, push_names_of_branches};
use pi_syntax::Exp;
use pi_terms::Text;
use std::alloc::{AllocError, Global};

/// Where an expression stands in the text of its clause.
#[derive(Drop)]
pub struct Site<'a> {
    /// How many slots the head of the clause fills.
    pub filled: u32,
    /// The names that stand before it.
    pub before: Vec<&'a str>,
    /// How many helpers there are before it.
    pub helpers: u64,
    pub naming: &'a Naming,
}

impl<'a> Site<'a> {
    /// The same place. Errors: no memory.
    pub fn copy(&self, alloc: Global) -> Result<Site<'a>, AllocError>
        ensures { IfOk result (λ made. site_of made ≡ site_of self.now) }
    {
        self.inside(alloc, self.filled, self.before.as_slice())
    }

    /// In the clause of a helper whose head fills so many slots, with these names before. Errors: no memory.
    pub fn inside(
        &self,
        alloc: Global,
        filled: u32,
        before: &[&'a str],
    ) -> Result<Site<'a>, AllocError>
        ensures { IfOk result (λ made. site_of made ≡ inside_of (site_of self.now) filled (names_in before.now)) }
    {
        let mut names = Vec::new(alloc);
        names.extend_from_slice(before)?;
        Ok(Site {
            filled,
            before: names,
            helpers: self.helpers,
            naming: self.naming,
        })
    }

    /// Goes on behind names and so many helpers. Errors: no memory.
    pub fn step(&mut self, names: &[&'a str], helpers: u64) -> Result<(), AllocError>
        ensures { IfOk result (λ _. site_of self.new ≡ behind_site (site_of self.old) (names_in names.now) helpers) }
    {
        put_behind(&mut self.before, names)?;
        self.helpers = together(self.helpers, helpers)?;
        Ok(())
    }

    /// Goes on behind an expression. Errors: no memory.
    pub fn pass(&mut self, alloc: Global, exp: &'a Exp) -> Result<(), AllocError>
        ensures { IfOk result (λ _. site_of self.new ≡ behind_exp (site_of self.old) (exp_tree exp.now)) }
    {
        let mut names = Vec::new(alloc);
        push_names(false, exp, &mut names)?;
        let helpers = helpers_in(exp)?;
        self.step(names.as_slice(), helpers)?;
        Ok(())
    }

    /// Behind an expression. Errors: no memory.
    pub fn behind(&self, alloc: Global, exp: &'a Exp) -> Result<Site<'a>, AllocError>
        ensures { IfOk result (λ made. site_of made ≡ behind_exp (site_of self.now) (exp_tree exp.now)) }
    {
        let mut made = self.copy(alloc)?;
        made.pass(alloc, exp)?;
        Ok(made)
    }

    /// Behind the names of an expression, whose helpers come later. Errors: no memory.
    pub fn behind_names(&self, alloc: Global, exp: &'a Exp) -> Result<Site<'a>, AllocError>
        ensures { IfOk result (λ made. site_of made ≡ behind_site (site_of self.now) (places (exp_tree exp.now)) 0) }
    {
        let mut names = Vec::new(alloc);
        push_names(false, exp, &mut names)?;
        let mut made = self.copy(alloc)?;
        made.step(names.as_slice(), 0)?;
        Ok(made)
    }

    /// Behind expressions. Errors: no memory.
    pub fn behind_all(&self, alloc: Global, exps: &'a [Exp]) -> Result<Site<'a>, AllocError>
        ensures { IfOk result (λ made. site_of made ≡
            behind_site (site_of self.now) (places_all (exps_of exps.now)) (helpers_of_all (exps_of exps.now))) }
    {
        let mut names = Vec::new(alloc);
        push_names_of_all(false, exps, &mut names)?;
        let helpers = helpers_in_all(exps)?;
        let mut made = self.copy(alloc)?;
        made.step(names.as_slice(), helpers)?;
        Ok(made)
    }

    /// Behind conditions and their bodies. Errors: no memory.
    pub fn behind_branches(
        &self,
        alloc: Global,
        branches: &'a [(Exp, Exp)],
    ) -> Result<Site<'a>, AllocError>
        ensures { IfOk result (λ made. site_of made ≡
            behind_site (site_of self.now) (places_of_branches (branches_in branches.now))
            (helpers_of_branches (branches_in branches.now))) }
    {
        let mut names = Vec::new(alloc);
        push_names_of_branches(false, branches, &mut names)?;
        let helpers = helpers_in_branches(branches)?;
        let mut made = self.copy(alloc)?;
        made.step(names.as_slice(), helpers)?;
        Ok(made)
    }

    /// What the helper behind so many further ones is called. Errors: no memory.
    pub fn name_of(&self, alloc: Global, further: u64) -> Result<Text, AllocError>
        ensures { IfOk result (λ made. made ≡ own_name self.now.naming.now.prefix (self.now.helpers + further)) }
    {
        let number = together(self.helpers, further)?;
        let name = self.naming.name_of(alloc, number)?;
        Ok(name)
    }
}
