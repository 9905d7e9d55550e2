//! What the facts of a branch answer: the sources of reads, and the order of writes.
ghost use Rattle.std.specs.Prelude.{◌≡◌, IfOk};
ghost use Rattle.reading_tables.specs.Told.{facts_of};
ghost use Rattle.refutations.specs.inner.Trees.{known_of};
ghost use Rattle.found_reasons.specs.inner.Answered.{answers_told, sources_told, pairs_told};

use reading_tables::facts::Fact;
use refutation_laws::{Pair, Source};
use refutations::Answers;
use std::alloc::Global;
use tso_terms::NoMemory;

fn told_sources(alloc: Global, facts: &[Fact<'_>]) -> Result<Vec<Source>, NoMemory>
    ensures { IfOk result (λ s. s.items ≡ sources_told (facts_of facts.now)) }
{
    let mut sources = Vec::new(alloc);
    for fact in facts {
        if let Fact::From(read, write, true) = fact {
            sources.push(Source {
                read: *read,
                write: *write,
            })?;
        }
    }
    Ok(sources)
}

fn told_pairs(alloc: Global, facts: &[Fact<'_>]) -> Result<Vec<Pair>, NoMemory>
    ensures { IfOk result (λ p. p.items ≡ pairs_told (facts_of facts.now)) }
{
    let mut order = Vec::new(alloc);
    for fact in facts {
        if let Fact::Before(first, second) = fact {
            order.push(Pair {
                first: *first,
                second: *second,
            })?;
        }
    }
    Ok(order)
}

/// What the facts of a branch answer.
///
/// Errors: out of memory only.
pub fn make_answers(alloc: Global, facts: &[Fact<'_>]) -> Result<Answers, NoMemory>
    ensures { IfOk result (λ a. known_of a ≡ answers_told (facts_of facts.now)) }
{
    let sources = told_sources(alloc, facts)?;
    let order = told_pairs(alloc, facts)?;
    Ok(Answers { sources, order })
}
