//! What many evaluations give together: in a reading clause all rows are looked at, and the smallest code counts (own).

ghost use Rattle.std.specs.Prelude.{◌≡◌, ◌≢◌, [], ◌∷◌, Result, Ok, Err, Some, IfErr, IfOk, OnOk, MatchResult};
ghost use Rattle.std.specs.Option.{option_to_list};
ghost use Rattle.cy_expr.specs.declared.faults.EvalFault.TheVariants.{NoMemory};
ghost use Rattle.cy_expr.specs.Faults.{on_one};
ghost use Rattle.cy_oneshot_patterns.specs.Outcomes as spec;
ghost use Rattle.cy_oneshot_meaning.specs.internal.Answers.{least};

use cy_expr::EvalFault;
use cy_values::Fault;
use std::alloc::Global;
use std::marker::Model;

/// The things that evaluations gave so far, one after another, or the fault with the smallest code. Being out of memory is no such
/// fault: it ends the whole at once.
#[derive(Drop)]
pub struct Gathered<T> {
    things: Vec<T>,
    fault: Option<EvalFault>,
}

impl<T> Model for Gathered<T> {
    ghost use Rattle.std.specs.Prelude.{List, Result};
    ghost use Rattle.cy_expr.specs.declared.faults.EvalFault.{EvalFault};
    ghost use Rattle.cy_oneshot_meaning.specs.internal.Answers.{outcome_of};

    ghost Value = { Result (List T) EvalFault };

    ghost view = { λ g. outcome_of g.things.items g.fault };
}

impl<T: Drop> Gathered<T> {
    /// Nothing yet.
    pub fn new(alloc: Global) -> Self
        ensures { result ≡ Ok [] }
    {
        Gathered {
            things: Vec::new(alloc),
            fault: None,
        }
    }

    /// Nothing yet, with room for this many things. Fails only when out of memory.
    pub fn with_capacity(alloc: Global, capacity: usize) -> Result<Self, Fault>
        ensures { IfOk result (λ gathered. gathered ≡ Ok []) }
    {
        Ok(Gathered {
            things: Vec::with_capacity(alloc, capacity)?,
            fault: None,
        })
    }

    /// Adds the thing that an evaluation gave, or its fault. Fails only when out of memory, that of the evaluation too.
    pub fn add(&mut self, outcome: Result<T, EvalFault>) -> Result<(), EvalFault>
        ensures ok { OnOk result (self.new ≡ spec.together self.old (on_one (λ x. Ok (x ∷ [])) outcome)) }
        ensures settled { OnOk result (outcome ≢ Err NoMemory) }
        ensures memory { IfErr result (λ fault. fault ≡ NoMemory) }
    {
        match outcome {
            Ok(thing) => self.put(thing),
            Err(fault) => self.fail(fault),
        }
    }

    /// Adds the thing that an evaluation gave, if it gave one, or its fault.
    pub fn add_if(&mut self, outcome: Result<Option<T>, EvalFault>) -> Result<(), EvalFault>
        ensures ok { OnOk result (self.new ≡ spec.together self.old (on_one (λ o. Ok (option_to_list o)) outcome)) }
        ensures settled { OnOk result (outcome ≢ Err NoMemory) }
        ensures memory { IfErr result (λ fault. fault ≡ NoMemory) }
    {
        match outcome {
            Ok(Some(thing)) => self.put(thing),
            Ok(None) => Ok(()),
            Err(fault) => self.fail(fault),
        }
    }

    /// Adds the several things that an evaluation gave, or its fault.
    pub fn add_all(&mut self, outcome: Result<Vec<T>, EvalFault>) -> Result<(), EvalFault>
        ensures ok { OnOk result (self.new ≡ spec.together self.old (on_one (λ xs. Ok xs.items) outcome)) }
        ensures settled { OnOk result (outcome ≢ Err NoMemory) }
        ensures memory { IfErr result (λ fault. fault ≡ NoMemory) }
    {
        match outcome {
            Ok(things) => self.put_all(things),
            Err(fault) => self.fail(fault),
        }
    }

    /// The things, or the fault.
    pub fn finish(self) -> Result<Vec<T>, EvalFault>
        ensures { MatchResult result (λ things. self ≡ Ok things.items) (λ fault. self ≡ Err fault) }
    {
        let Gathered { things, fault } = self;
        match fault {
            Some(fault) => Err(fault),
            None => Ok(things),
        }
    }

    // Adds a thing; beside a fault none is kept.
    fn put(&mut self, thing: T) -> Result<(), EvalFault>
        ensures ok { OnOk result (self.new ≡ spec.together self.old (Ok (thing ∷ []))) }
        ensures memory { IfErr result (λ fault. fault ≡ NoMemory) }
    {
        match self.fault {
            Some(_) => Ok(()),
            None => Ok(self.things.push(thing)?),
        }
    }

    // Adds several things.
    fn put_all(&mut self, mut things: Vec<T>) -> Result<(), EvalFault>
        ensures ok { OnOk result (self.new ≡ spec.together self.old (Ok things.items)) }
        ensures memory { IfErr result (λ fault. fault ≡ NoMemory) }
    {
        match self.fault {
            Some(_) => Ok(()),
            None => Ok(self.things.append(&mut things)?),
        }
    }

    // Adds a fault.
    fn fail(&mut self, fault: EvalFault) -> Result<(), EvalFault>
        ensures ok { OnOk result (self.new ≡ spec.together self.old (Err fault)) }
        ensures settled { OnOk result (fault ≢ NoMemory) }
        ensures memory { IfErr result (λ fault. fault ≡ NoMemory) }
    {
        match fault {
            EvalFault::NoMemory => Err(fault),
            _ => {
                self.fault = Some(smallest(self.fault, fault));
                Ok(())
            }
        }
    }
}

/// The one with the smaller code of the fault so far, if there is one, and another.
pub fn smallest(so_far: Option<EvalFault>, fault: EvalFault) -> EvalFault
    ensures { result ≡ least so_far fault }
{
    match so_far {
        Some(other) if other.code() <= fault.code() => other,
        _ => fault,
    }
}
