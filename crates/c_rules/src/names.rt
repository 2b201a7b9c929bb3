// The declared names of a program by number.

ghost use Rattle.std.specs.Prelude.{◌≡◌, ◌≢◌, ◌+◌, ◌<◌, ◌≤◌, ◌^◌, ℕ, [], length, max, vec_len, OnOk, OnErr, IfOk, IfSome, IsTrue, ◌↔◌, Some, None, map};
ghost use Rattle.std.specs.Prelude.{if◌then◌else◌};
ghost use Rattle.std.specs.List.{list_any};
ghost use Rattle.std.specs.Option.{option_or};
ghost use Rattle.indexmap.specs.IndexSet.{insert_key, insert_all};
ghost use Rattle.c_ast.specs.Rules.{same_name};
ghost use Rattle.c_rules.specs.Naming.{number_in, is_numbered, declared_name, function_name, declared_names, once, is_any_twice, at_place, by_name};
ghost use Rattle.c_ast.specs.View.{declared_of, function_of, whole_of};

use c_ast::{Decl, Func, Name, Program};
use indexmap::IndexSet;
use sci_base::NoMemory;
use std::alloc::Global;
use std::marker::Model;

/// Names by number, from 0 on in the order in which they came. A name that comes again keeps its number.
#[derive(Drop)]
pub struct Names {
    set: IndexSet<Name>,
}

impl Model for Names {
    ghost use Rattle.std.specs.Prelude.{List};
    ghost use Rattle.c_ast.specs.declared.Name.{Name};

    ghost Value = { List Name };

    ghost view = { λ n. n.set.keys };
}

impl Names {
    /// No names.
    pub fn new(alloc: Global) -> Names
        ensures { result ≡ [] }
    {
        Names {
            set: IndexSet::new(alloc),
        }
    }

    /// The number of a name, if it has one.
    pub fn number_of(&self, name: Name) -> Option<usize>
        ensures value { result ≡ number_in self.now name }
        ensures within { IfSome result (λ n. n < length self.now) }
    {
        self.set.get_index_of(&name)
    }

    /// The number of a name, which is the next one where it has none yet.
    pub fn add(&mut self, name: Name) -> Result<usize, NoMemory>
        ensures names { OnOk result (self.new ≡ insert_key same_name self.old name) }
        ensures number { IfOk result (λ n. number_in self.new name ≡ Some n) }
        ensures within { IfOk result (λ n. n < length self.new) }
        ensures few { IfOk result (λ n. n < 2 ^ 63) }
        ensures err { OnErr result (self.new ≡ self.old) }
    {
        let (number, _) = self.set.insert_full(name)?;
        prove!(number < self.set.len());
        Ok(number)
    }

    // The names of variables.
    fn add_variables(&mut self, decls: &[Decl]) -> Result<(), NoMemory>
        ensures { OnOk result (self.new ≡ insert_all same_name self.old (map declared_name (map declared_of decls.now))) }
    {
        for decl in decls {
            self.add(decl.name)?;
        }
        Ok(())
    }

    // The names of functions.
    fn add_functions(&mut self, funcs: &[Func]) -> Result<(), NoMemory>
        ensures { OnOk result (self.new ≡ insert_all same_name self.old (map function_name (map function_of funcs.now))) }
    {
        for func in funcs {
            self.add(func.name)?;
        }
        Ok(())
    }

    /// The names that a program declares, the variables and then the functions, in the order of its text. A name that is declared again
    /// keeps the number that it has: where one is, and only there, there are fewer names than declarations.
    pub fn number(alloc: Global, p: &Program) -> Result<Names, NoMemory>
        ensures names { IfOk result (λ n. n ≡ once (declared_names (whole_of p.now))) }
        ensures declared { IfOk result (λ n. (x : Name) → is_numbered n x ≡ list_any (same_name x) (declared_names (whole_of p.now))) }
        ensures twice { IfOk result (λ n. IsTrue (is_any_twice (declared_names (whole_of p.now))) ↔ (length n < length (declared_names (whole_of p.now)))) }
    {
        let mut names = Names::new(alloc);
        names.add_variables(&p.decls)?;
        names.add_functions(&p.funcs)?;
        Ok(names)
    }

    /// What stands at the number of a name, if the name has one.
    pub fn look<V: Copy>(&self, values: &[Option<V>], name: Name) -> Option<V>
        ensures { result ≡ by_name self.now values.now name }
    {
        let number = self.number_of(name)?;
        value_at(values, number)
    }

    /// Puts a value at the number of a name, which has one, unless something stands there.
    pub fn enter<V: Copy>(
        &self,
        values: &mut Vec<Option<V>>,
        name: Name,
        value: V,
    ) -> Result<(), NoMemory>
        requires { IsTrue (is_numbered self.now name) }
        ensures entered { (q : Name) → OnOk result (by_name self.now values.new.items q
            ≡ option_or (by_name self.now values.old.items q) (if same_name name q then Some value else None)) }
        ensures err { OnErr result ((n : ℕ) → at_place values.new.items n ≡ at_place values.old.items n) }
    {
        let Some(number) = self.number_of(name) else {
            unreachable!()
        };
        prove!(number < self.set.len());
        match value_at(values, number) {
            Some(_) => Ok(()),
            None => put(values, number, value),
        }
    }
}

/// What stands at a number, if anything.
pub fn value_at<V: Copy>(values: &[Option<V>], number: usize) -> Option<V>
    ensures { result ≡ at_place values.now number }
{
    match values.get(number) {
        None => None,
        Some(value) => *value,
    }
}

// Fills a list up to so many places, with nothing at the new ones.
fn fill<V: Copy>(values: &mut Vec<Option<V>>, count: usize) -> Result<(), NoMemory>
    ensures same { (n : ℕ) → at_place values.new.items n ≡ at_place values.old.items n }
    ensures long { OnOk result (count ≤ vec_len values.new) }
    ensures most { vec_len values.new ≤ max (vec_len values.old) count }
{
    if values.len() < count {
        values.resize(count, None)?;
    }
    Ok(())
}

/// Puts a value at a number, where nothing else changes.
pub fn put<V: Copy>(values: &mut Vec<Option<V>>, number: usize, value: V) -> Result<(), NoMemory>
    requires { number < 2 ^ 63 }
    ensures there { OnOk result (at_place values.new.items number ≡ Some value) }
    ensures others { (n : ℕ) → n ≢ number → at_place values.new.items n ≡ at_place values.old.items n }
    ensures most { vec_len values.new ≤ max (vec_len values.old) (number + 1) }
    ensures err { OnErr result ((n : ℕ) → at_place values.new.items n ≡ at_place values.old.items n) }
{
    fill(values, number + 1)?;
    values[number] = Some(value);
    Ok(())
}
