//! The variables that are bound at a place.

ghost use Rattle.std.specs.Prelude.{◌≡◌, List, ℕ, [], ◌∷◌, ◌++◌, map, take, OnOk, IfSome, string_bytes, length, ◌<◌, ◌≤◌, ◌^◌, false};
ghost use Rattle.std.specs.List.{position};
ghost use Rattle.std.specs.Str.{bytes_eq};
ghost use Rattle.cy_scope_kinds.specs.declared.kinds.Kind.{Kind};
ghost use Rattle.cy_scope_kinds.specs.Scopes as spec;
ghost use Rattle.cy_scope_kinds.specs.internal.Maps.{few, variables_of, AreColumns};
ghost use Rattle.cy_trees.specs.TreeModels.{path_of, step_of};

use crate::kinds::Kind;
use cy_trees::{Length, Path, Step, Variable};
use std::alloc::{AllocError, Global};
use std::collections::BTreeMap;
use std::marker::Model;

// How many variables are found without the map of columns.
const FEW: usize = 16;

/// The variables that are bound at a place, each with its kind, in the order of their columns.
#[derive(Drop)]
pub struct Scope {
    variables: Vec<(String, Kind)>,
    /// The column of each name but the first few, which are searched one by one. The map is ordered, since names can be chosen whose hashes collide.
    columns: BTreeMap<String, usize>,
}

impl Model for Scope {
    ghost Value = { List (List ℕ × Kind) };

    ghost view = { λ s. variables_of s.variables.items };

    ghost invariant = { λ s. AreColumns s.columns (variables_of s.variables.items) };
}

impl Scope {
    /// A scope without a variable.
    pub fn new(alloc: Global) -> Self
        ensures { result ≡ [] }
    {
        Scope {
            variables: Vec::new(alloc),
            columns: BTreeMap::new(alloc),
        }
    }

    /// The kind of the variable of the name, if it is bound.
    pub fn find_kind(&self, name: &str) -> Option<Kind>
        ensures { result ≡ spec.find_kind self.now name.now }
    {
        let column = self.find_column(name)?;
        let (_, kind) = self.variables.get(column)?;
        Some(*kind)
    }

    /// The column of the variable of the name, if it is bound.
    pub fn find_column(&self, name: &str) -> Option<usize>
        ensures value { result ≡ spec.find_column self.now name.now }
        ensures small { IfSome result (λ column. column < 2 ^ 63) }
    {
        let column = self.search(name)?;
        prove!(column < self.variables.len());
        Some(column)
    }

    // The column of the variable of the name: its place among the first few, or what the map has.
    #[tactic(auto, using(crate::proofs::ScopeColumns::early_found, crate::proofs::ScopeColumns::late_found))]
    fn search(&self, name: &str) -> Option<usize>
        ensures { result ≡ spec.find_column self.now name.now }
    {
        match find_early(&self.variables, name) {
            Some(column) => Some(column),
            None => self.columns.get(name).copied(),
        }
    }

    /// The number of variables.
    pub(crate) fn len(&self) -> usize
        ensures len { result ≡ length self.now }
        ensures small { result < 2 ^ 63 }
    {
        self.variables.len()
    }

    /// Whether the other scope has variables of the same names, in the same order.
    pub fn has_same_names(&self, other: &Scope) -> bool
        ensures { result ≡ spec.has_same_names self.now other.now }
    {
        have_same_names(&self.variables, &other.variables)
    }

    /// Adds a variable, if its name is new.
    pub fn add_name(&mut self, kind: Kind, name: &str) -> Result<(), AllocError>
        ensures { OnOk result (self.new ≡ spec.added_name self.old kind name.now) }
    {
        if self.find_kind(name).is_some() {
            return Ok(());
        }
        if self.len() < FEW {
            self.add_early(kind, name)
        } else {
            self.add_late(kind, name)
        }
    }

    // Adds a new variable among the first few.
    fn add_early(&mut self, kind: Kind, name: &str) -> Result<(), AllocError>
        requires { length self.old < few }
        ensures { OnOk result (self.new ≡ self.old ++ (name.now, kind) ∷ []) }
    {
        let own_name = String::from_str(*self.variables.allocator(), name)?;
        self.variables.push((own_name, kind))?;
        Ok(())
    }

    // Adds a new variable after the first few.
    fn add_late(&mut self, kind: Kind, name: &str) -> Result<(), AllocError>
        requires unbound { spec.is_bound self.old name.now ≡ false }
        requires late { few ≤ length self.old }
        ensures { OnOk result (self.new ≡ self.old ++ (name.now, kind) ∷ []) }
    {
        let alloc = *self.variables.allocator();
        let key = String::from_str(alloc, name)?;
        let own_name = String::from_str(alloc, name)?;
        let column = self.variables.len();
        self.variables.reserve(1)?;
        self.columns.insert(key, column)?;
        self.variables.push_reserved((own_name, kind));
        Ok(())
    }

    /// Adds a variable, if there is one and its name is new.
    pub(crate) fn add(&mut self, kind: Kind, variable: &Option<Variable>) -> Result<(), AllocError>
        ensures { OnOk result (self.new ≡ spec.added self.old kind variable.now) }
    {
        match variable {
            Some(variable) => self.add_name(kind, variable.name.as_str()),
            None => Ok(()),
        }
    }

    fn add_step(&mut self, step: &Step) -> Result<(), AllocError>
        ensures { OnOk result (self.new ≡ spec.with_step self.old (step_of step.now)) }
    {
        let relationship = &step.relationship;
        self.add(
            relationship_kind(relationship.length),
            &relationship.variable,
        )?;
        self.add(Kind::Node, &step.node.variable)
    }

    fn add_path(&mut self, path: &Path) -> Result<(), AllocError>
        ensures { OnOk result (self.new ≡ spec.with_path self.old (path_of path.now)) }
    {
        self.add(Kind::Node, &path.start.variable)?;
        for step in &path.steps {
            self.add_step(step)?;
        }
        Ok(())
    }

    /// Adds the new names of a pattern, in the order of the text.
    pub fn add_paths(&mut self, paths: &[Path]) -> Result<(), AllocError>
        ensures { OnOk result (self.new ≡ spec.with_paths self.old (map path_of paths.now)) }
    {
        for path in paths {
            self.add_path(path)?;
        }
        Ok(())
    }
}

// The column of the variable of the name, if it is one of the first few.
fn find_early(variables: &[(String, Kind)], name: &str) -> Option<usize>
    ensures { result ≡ spec.find_column (variables_of (take few variables.now)) name.now }
{
    place_of(&variables[..FEW.min(variables.len())], name)
}

// The place of the first variable of the name.
fn place_of(variables: &[(String, Kind)], name: &str) -> Option<usize>
    ensures { result ≡ position (λ v. bytes_eq name.now (string_bytes v.0)) variables.now }
{
    variables
        .iter()
        .position(|variable| name == variable.0.as_str())
}

/// Whether variables have the same names, in the same order.
fn have_same_names(variables: &[(String, Kind)], others: &[(String, Kind)]) -> bool
    ensures { result ≡ spec.has_same_names (variables_of variables.now) (variables_of others.now) }
{
    let mut left = others.iter();
    for (name, _) in variables {
        let Some((other, _)) = left.next() else {
            return false;
        };
        if name.as_str() != other.as_str() {
            return false;
        }
    }
    left.next().is_none()
}

/// The kind of a relationship's variable, which stands for several where a length is written.
pub fn relationship_kind(length: Option<Length>) -> Kind
    ensures { result ≡ spec.relationship_kind length }
{
    match length {
        Some(_) => Kind::Relationships,
        None => Kind::Relationship,
    }
}
