//! Edges that the facts of a branch tell, and the cycles of them that a model forbids. (herd's `x86tso.cat`.)
ghost use Rattle.std.specs.Prelude.{◌≡◌};
ghost use Rattle.std.specs.List.{list_all};
ghost use Rattle.refutation_laws.specs.Edges as edges;
ghost use Rattle.refutation_laws.specs.Refutations.{sources_of};
ghost use Rattle.refutation_laws.specs.declared.model.Relation.TheVariants.{Mfence};
ghost use Rattle.refutations.specs.inner.Trees.{relations_of};
ghost use Rattle.lemma_refutations.specs.Edges as spec;
ghost use Rattle.lemma_refutations.specs.Shown as shown;
ghost use Rattle.reading_tables.specs.inner.Tables.{IsTold};
ghost use Rattle.refutation_checker.specs.inner.Branches.{knowledge_of};

use reading_tables::orders::comes_before;
use reading_tables::sources::reads_it;
use reading_tables::tables::{Told, reading_for};
use refutation_laws::{Model, Relation};
use refutations::edges::Acyclic;
use refutations::events::{
    are_parts, is_access, is_before, is_event, is_locked, is_read, is_write, share_location,
    writes_to,
};
use tso_terms::{Entry, Kind};

/// Whether w is all that the read r can read from.
pub fn reads_from(told: Told<'_>, w: &Entry, r: &Entry) -> bool
    requires { IsTold told }
    ensures { result ≡ spec.reads_from told.entry.test.now (knowledge_of told.entry) w.now r.now }
{
    is_read(r) && reads_it(told, &Some(*w), r)
}

fn overwrites(told: Told<'_>, r: &Entry, v: &Entry, source: &Option<Entry>) -> bool
    requires { IsTold told }
    ensures { result ≡ spec.overwrites told.entry.test.now (knowledge_of told.entry) r.now v.now source.now }
{
    match source {
        None => writes_to(r.loc.0, v),
        Some(w) => comes_before(told, w, v),
    }
}

fn overwrites_these(told: Told<'_>, r: &Entry, v: &Entry, sources: &[Option<Entry>]) -> bool
    requires { IsTold told }
    ensures { result ≡ list_all (spec.overwrites told.entry.test.now (knowledge_of told.entry) r.now v.now) sources.now }
{
    for source in sources {
        if !overwrites(told, r, v, source) {
            return false;
        }
    }
    true
}

fn overwrites_all(told: Told<'_>, r: &Entry, v: &Entry) -> bool
    requires { IsTold told }
    ensures { result ≡ list_all (spec.overwrites told.entry.test.now (knowledge_of told.entry) r.now v.now) (sources_of told.entry.test.now r.now) }
{
    if !writes_to(r.loc.0, v) {
        return false;
    }
    for w in told.events {
        if writes_to(r.loc.0, w) && !comes_before(told, w, v) {
            return false;
        }
    }
    true
}

/// Whether v is after all that the read r can read from.
pub fn from_reads(told: Told<'_>, r: &Entry, v: &Entry) -> bool
    requires { IsTold told }
    ensures { result ≡ spec.from_reads told.entry.test.now (knowledge_of told.entry) r.now v.now }
{
    if !is_read(r) {
        return false;
    }
    match reading_for(told.readings, r) {
        Some(x) => overwrites_these(told, r, v, &x.sources),
        None => overwrites_all(told, r, v),
    }
}

/// Whether the facts tell that the relation leads from x to y.
pub fn relates(told: Told<'_>, relation: Relation, x: &Entry, y: &Entry) -> bool
    requires { IsTold told }
    ensures { result ≡ spec.relates told.entry.test.now (knowledge_of told.entry) relation x.now y.now }
{
    match relation {
        Relation::Po => is_before(x, y),
        Relation::PoLoc => is_before(x, y) && share_location(x, y),
        Relation::PoGhb => {
            is_before(x, y) && (is_write(x) && is_write(y) || is_read(x) && is_access(y))
        }
        Relation::Mfence => are_fenced(told, x, y),
        Relation::Implied => {
            is_before(x, y) && is_write(x) && is_read(y) && (is_locked(x) || is_locked(y))
        }
        Relation::Rf => reads_from(told, x, y),
        Relation::Rfe => reads_from(told, x, y) && x.core.0 != y.core.0,
        Relation::Co => is_write(x) && comes_before(told, x, y),
        Relation::Fr => from_reads(told, x, y),
    }
}

fn are_fenced(told: Told<'_>, x: &Entry, y: &Entry) -> bool
    requires { IsTold told }
    ensures { result ≡ spec.relates told.entry.test.now (knowledge_of told.entry) Mfence x.now y.now }
{
    for f in told.events {
        if f.kind == Kind::F && is_before(x, f) && is_before(f, y) {
            return true;
        }
    }
    false
}

fn first_that_relates(
    told: Told<'_>,
    relations: &[Relation],
    x: &Entry,
    y: &Entry,
) -> Option<Relation>
    requires { IsTold told }
    ensures { result ≡ shown.first_that_relates told.entry.test.now (knowledge_of told.entry) relations.now x.now y.now }
{
    for relation in relations {
        if relates(told, *relation, x, y) {
            return Some(*relation);
        }
    }
    None
}

/// The relation of an edge: of those that are acyclic together the first that leads from x to y.
pub fn first_relation(told: Told<'_>, acyclic: Acyclic, x: &Entry, y: &Entry) -> Option<Relation>
    requires { IsTold told }
    ensures { result ≡ shown.first_that_relates told.entry.test.now (knowledge_of told.entry) (relations_of acyclic) x.now y.now }
{
    match acyclic {
        Acyclic::OnLocation => {
            let relations = [Relation::PoLoc, Relation::Rf, Relation::Co, Relation::Fr];
            first_that_relates(told, &relations, x, y)
        }
        Acyclic::Globally(Model::Tso) => {
            let relations = [
                Relation::PoGhb,
                Relation::Mfence,
                Relation::Implied,
                Relation::Rfe,
                Relation::Co,
                Relation::Fr,
            ];
            first_that_relates(told, &relations, x, y)
        }
        Acyclic::Globally(Model::Sequential) => {
            let relations = [Relation::Po, Relation::Rf, Relation::Co, Relation::Fr];
            first_that_relates(told, &relations, x, y)
        }
    }
}

/// Whether one of the relations that are acyclic together leads from x to y.
#[tactic(auto, using(crate::proofs::Relating::found))]
pub fn leads_to(told: Told<'_>, acyclic: Acyclic, x: &Entry, y: &Entry) -> bool
    requires { IsTold told }
    ensures { result ≡ spec.is_edge told.entry.test.now (knowledge_of told.entry) (relations_of acyclic) x.now y.now }
{
    first_relation(told, acyclic, x, y).is_some()
}

/// Whether each of these is one of the test's events and leads to the next one, and the last one to the first.
pub fn is_cycle(told: Told<'_>, acyclic: Acyclic, cycle: &[Entry]) -> bool
    requires { IsTold told }
    ensures { result ≡ edges.is_cycle told.entry.test.now (spec.is_edge told.entry.test.now (knowledge_of told.entry) (relations_of acyclic)) cycle.now }
{
    let Some((first, rest)) = cycle.split_first() else {
        return false;
    };
    for e in cycle {
        if !is_event(told.test, told.events, e) {
            return false;
        }
    }
    let mut last = first;
    for next in rest {
        if !leads_to(told, acyclic, last, next) {
            return false;
        }
        last = next;
    }
    leads_to(told, acyclic, last, first)
}

/// Whether v comes after what the load part r reads from, and before the store part w.
pub fn is_between(told: Told<'_>, r: &Entry, v: &Entry, w: &Entry) -> bool
    requires { IsTold told }
    ensures { result ≡ spec.is_between told.entry.test.now (knowledge_of told.entry) r.now v.now w.now }
{
    is_event(told.test, told.events, r)
        && is_event(told.test, told.events, v)
        && is_event(told.test, told.events, w)
        && are_parts(r, w)
        && r.core.0 != v.core.0
        && from_reads(told, r, v)
        && comes_before(told, v, w)
}
