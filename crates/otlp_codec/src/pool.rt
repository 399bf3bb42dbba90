//! Lists of a request whose memory is used again.

ghost use Rattle.std.specs.Prelude.{◌≡◌, [], IfOk, IfSome};

use otlp_model::{
    Event, Exemplar, HistPoint, Items, Link, LogRecord, Metric, Pair, Point, Quantile,
    ResourceGroup, ScopeGroup, Shape, Span, SumPoint,
};
use std::alloc::{AllocError, Global};
use std::mem;

/// A new list of attributes has room for this number of them.
const FIRST_PAIRS: usize = 8;

/// The most lists of attributes that a pool keeps, and the most lists of any other type.
const MOST_PAIRS: usize = 2048;

const MOST_LISTS: usize = 512;

/// The most parts of a list that it keeps.
const MOST_PARTS: usize = 32;

/// Lists of one type whose memory is used again.
#[derive(Debug, Drop)]
pub(crate) struct Spares<T> {
    lists: Vec<Items<T>>,
    /// The most lists that are kept.
    most: usize,
}

impl<T> Spares<T> {
    fn new(alloc: Global, most: usize) -> Spares<T> {
        Spares {
            lists: Vec::new(alloc),
            most,
        }
    }
}

impl<T: Drop> Spares<T> {
    /// A list that was kept. It is empty.
    #[inline]
    fn pop(&mut self) -> Option<Items<T>>
        ensures { IfSome result (λ list. list ≡ []) }
    {
        let mut spare = self.lists.pop()?;
        spare.clear();
        Some(spare)
    }

    /// Drops the parts of a list, and keeps its memory: of a short one, as long as there aren't enough. Where there is no memory
    /// to keep a list, it is dropped.
    fn keep(&mut self, mut list: Items<T>) {
        if !list.is_empty() && list.len() <= MOST_PARTS && self.lists.len() < self.most {
            list.clear();
            let _ = self.lists.push(list);
        }
    }
}

/// A pool of lists: those of requests that are done with, for requests that are read next. What else a request needs comes from
/// the allocator.
#[derive(Debug, Drop)]
pub(crate) struct Pool {
    alloc: Global,
    pairs: Spares<Pair>,
    logs: Spares<LogRecord>,
    log_scopes: Spares<ScopeGroup<LogRecord>>,
    spans: Spares<Span>,
    span_scopes: Spares<ScopeGroup<Span>>,
    events: Spares<Event>,
    links: Spares<Link>,
    metrics: Spares<Metric>,
    metric_scopes: Spares<ScopeGroup<Metric>>,
    points: Spares<Point>,
    hist_points: Spares<HistPoint>,
    sum_points: Spares<SumPoint>,
    exemplars: Spares<Exemplar>,
}

impl Pool {
    pub(crate) fn new(alloc: Global) -> Pool {
        Pool {
            alloc,
            pairs: Spares::new(alloc, MOST_PAIRS),
            logs: Spares::new(alloc, MOST_LISTS),
            log_scopes: Spares::new(alloc, MOST_LISTS),
            spans: Spares::new(alloc, MOST_LISTS),
            span_scopes: Spares::new(alloc, MOST_LISTS),
            events: Spares::new(alloc, MOST_LISTS),
            links: Spares::new(alloc, MOST_LISTS),
            metrics: Spares::new(alloc, MOST_LISTS),
            metric_scopes: Spares::new(alloc, MOST_LISTS),
            points: Spares::new(alloc, MOST_LISTS),
            hist_points: Spares::new(alloc, MOST_LISTS),
            sum_points: Spares::new(alloc, MOST_LISTS),
            exemplars: Spares::new(alloc, MOST_LISTS),
        }
    }

    pub(crate) fn alloc(&self) -> Global {
        self.alloc
    }

    /// An empty list with room for some attributes.
    #[inline]
    pub(crate) fn pairs(&mut self) -> Result<Items<Pair>, AllocError>
        ensures { IfOk result (λ pairs. pairs ≡ []) }
    {
        if let Some(spare) = self.pairs.pop() {
            return Ok(spare);
        }
        let mut pairs = Items::new(self.alloc);
        pairs.reserve(FIRST_PAIRS)?;
        Ok(pairs)
    }

    /// Takes the attributes of a list, and keeps its memory.
    pub(crate) fn keep_pairs(&mut self, pairs: &mut Items<Pair>)
        ensures { pairs.new ≡ [] }
    {
        let pairs = mem::replace(pairs, Items::new(self.alloc));
        self.pairs.keep(pairs);
    }
}

/// A part of a request that may occur any number of times.
pub(crate) trait Repeated: Drop {
    /// Where a pool keeps lists of such parts, if it does.
    fn spares(pool: &mut Pool) -> Option<&mut Spares<Self>> {
        let _ = pool;
        None
    }

    /// The same for the scopes that hold such parts.
    fn scope_spares(pool: &mut Pool) -> Option<&mut Spares<ScopeGroup<Self>>> {
        let _ = pool;
        None
    }

    /// Gives the lists that it holds to the pool. They are empty then.
    fn give_back(&mut self, pool: &mut Pool) {
        let _ = pool;
    }
}

/// An empty list of parts, of a request that came back, if there is one.
#[inline]
pub(crate) fn spare_list<P: Repeated>(pool: &mut Pool) -> Items<P>
    ensures { result ≡ [] }
{
    let alloc = pool.alloc;
    let spare = match P::spares(pool) {
        Some(spares) => spares.pop(),
        None => None,
    };
    match spare {
        Some(list) => list,
        None => Items::new(alloc),
    }
}

/// Gives the pool a list of parts and the lists of each of them.
pub(crate) fn give_back_all<P: Repeated>(parts: &mut Items<P>, pool: &mut Pool) {
    'parts: for place in 0..parts.len() {
        if let Some(part) = parts.get_mut(place) {
            part.give_back(pool);
        }
    }
    let parts = mem::replace(parts, Items::new(pool.alloc));
    if let Some(spares) = P::spares(pool) {
        spares.keep(parts);
    }
}

impl Repeated for LogRecord {
    fn spares(pool: &mut Pool) -> Option<&mut Spares<LogRecord>> {
        Some(&mut pool.logs)
    }

    fn scope_spares(pool: &mut Pool) -> Option<&mut Spares<ScopeGroup<LogRecord>>> {
        Some(&mut pool.log_scopes)
    }

    fn give_back(&mut self, pool: &mut Pool) {
        pool.keep_pairs(&mut self.pairs);
    }
}

impl Repeated for Span {
    fn spares(pool: &mut Pool) -> Option<&mut Spares<Span>> {
        Some(&mut pool.spans)
    }

    fn scope_spares(pool: &mut Pool) -> Option<&mut Spares<ScopeGroup<Span>>> {
        Some(&mut pool.span_scopes)
    }

    fn give_back(&mut self, pool: &mut Pool) {
        pool.keep_pairs(&mut self.pairs);
        give_back_all(&mut self.events, pool);
        give_back_all(&mut self.links, pool);
    }
}

impl Repeated for Event {
    fn spares(pool: &mut Pool) -> Option<&mut Spares<Event>> {
        Some(&mut pool.events)
    }

    fn give_back(&mut self, pool: &mut Pool) {
        pool.keep_pairs(&mut self.pairs);
    }
}

impl Repeated for Link {
    fn spares(pool: &mut Pool) -> Option<&mut Spares<Link>> {
        Some(&mut pool.links)
    }

    fn give_back(&mut self, pool: &mut Pool) {
        pool.keep_pairs(&mut self.pairs);
    }
}

impl Repeated for Metric {
    fn spares(pool: &mut Pool) -> Option<&mut Spares<Metric>> {
        Some(&mut pool.metrics)
    }

    fn scope_spares(pool: &mut Pool) -> Option<&mut Spares<ScopeGroup<Metric>>> {
        Some(&mut pool.metric_scopes)
    }

    fn give_back(&mut self, pool: &mut Pool) {
        match &mut self.shape {
            Shape::Empty => {}
            Shape::Gauge(points) => give_back_all(points, pool),
            Shape::Sum { points, .. } => give_back_all(points, pool),
            Shape::Histogram { points, .. } => give_back_all(points, pool),
            Shape::Summary(points) => give_back_all(points, pool),
        }
    }
}

impl Repeated for Point {
    fn spares(pool: &mut Pool) -> Option<&mut Spares<Point>> {
        Some(&mut pool.points)
    }

    fn give_back(&mut self, pool: &mut Pool) {
        pool.keep_pairs(&mut self.pairs);
        give_back_all(&mut self.exemplars, pool);
    }
}

impl Repeated for HistPoint {
    fn spares(pool: &mut Pool) -> Option<&mut Spares<HistPoint>> {
        Some(&mut pool.hist_points)
    }

    fn give_back(&mut self, pool: &mut Pool) {
        pool.keep_pairs(&mut self.pairs);
        give_back_all(&mut self.exemplars, pool);
    }
}

impl Repeated for SumPoint {
    fn spares(pool: &mut Pool) -> Option<&mut Spares<SumPoint>> {
        Some(&mut pool.sum_points)
    }

    fn give_back(&mut self, pool: &mut Pool) {
        pool.keep_pairs(&mut self.pairs);
    }
}

impl Repeated for Exemplar {
    fn spares(pool: &mut Pool) -> Option<&mut Spares<Exemplar>> {
        Some(&mut pool.exemplars)
    }

    fn give_back(&mut self, pool: &mut Pool) {
        pool.keep_pairs(&mut self.pairs);
    }
}

impl Repeated for Quantile {}

impl<I: Repeated> Repeated for ScopeGroup<I> {
    fn spares(pool: &mut Pool) -> Option<&mut Spares<ScopeGroup<I>>> {
        I::scope_spares(pool)
    }

    fn give_back(&mut self, pool: &mut Pool) {
        pool.keep_pairs(&mut self.scope.pairs);
        give_back_all(&mut self.items, pool);
    }
}

impl<I: Repeated> Repeated for ResourceGroup<I> {
    fn give_back(&mut self, pool: &mut Pool) {
        pool.keep_pairs(&mut self.resource.pairs);
        give_back_all(&mut self.scopes, pool);
    }
}
