//! Conditions on columns of an operator, by where they go on. Each call fails only when out of memory.

ghost use Rattle.std.specs.Prelude.{◌≡◌, OnOk};
ghost use Rattle.cy_trees.specs.TreeModels.{expression_of};
ghost use Rattle.cy_planner_pushdown.specs.internal.Splits as spec;
ghost use Rattle.cy_planner_pushdown.specs.internal.Tests.{tests_of};

use crate::sides::Way;
use crate::tests::CellsTest;
use cy_trees::Expr;
use cy_values::Fault;
use std::alloc::Global;

/// The conditions that stay on an operator, those that go on in its only input or its left one, and those that go on in its right one.
#[derive(Drop)]
pub(crate) struct Split {
    pub(crate) here: Vec<CellsTest>,
    pub(crate) first: Vec<CellsTest>,
    pub(crate) second: Vec<CellsTest>,
}

impl Split {
    pub(crate) fn new(alloc: Global) -> Self
        ensures { spec.tests_in result ≡ spec.none }
    {
        Split {
            here: Vec::new(alloc),
            first: Vec::new(alloc),
            second: Vec::new(alloc),
        }
    }

    /// All go on in the only input, or in the left one.
    pub(crate) fn of_first(alloc: Global, tests: Vec<CellsTest>) -> Self
        ensures { spec.tests_in result ≡ spec.all_first (tests_of tests.items) }
    {
        Split {
            here: Vec::new(alloc),
            first: tests,
            second: Vec::new(alloc),
        }
    }

    /// Adds a condition that goes this way.
    pub(crate) fn add(
        &mut self,
        alloc: Global,
        way: Way,
        test: Expr,
        asks: bool,
    ) -> Result<(), Fault>
        ensures { OnOk result (spec.tests_in self.new ≡ spec.with_way way (expression_of test) (spec.tests_in self.old)) }
    {
        match way {
            Way::Here(columns) => self.here.push(CellsTest {
                columns,
                test,
                asks,
            })?,
            Way::First(columns) => self.first.push(CellsTest {
                columns,
                test,
                asks,
            })?,
            Way::Second(columns) => self.second.push(CellsTest {
                columns,
                test,
                asks,
            })?,
            Way::Both(lefts, rights) => {
                let copy = test.copy(alloc)?;
                self.first.push(CellsTest {
                    columns: lefts,
                    test: copy,
                    asks,
                })?;
                self.second.push(CellsTest {
                    columns: rights,
                    test,
                    asks,
                })?;
            }
        }
        Ok(())
    }
}
