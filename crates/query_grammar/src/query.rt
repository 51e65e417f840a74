//! Queries as data.
use crate::filters::Filters;
use crate::word::QueryWord;
use code_units::Text;
use std::marker::Model;

/// What a step finds from each node.
#[derive(Drop)]
pub enum Hunter {
    /// The elements below it with this tag.
    Tag(Text),
    /// The element below it with this `id`.
    Id(Text),
    /// Its child elements with this tag.
    Child(Text),
    /// The next sibling element, where it has this tag.
    Next(Text),
    /// Its child elements.
    Children,
    /// All elements below it.
    All,
}

/// A filter on a node.
#[derive(Drop)]
pub enum Filter<'a> {
    /// The word is among the words of `class`.
    Class(QueryWord<'a>),
    /// The attribute `name` is the word.
    Name(QueryWord<'a>),
    /// The attribute `type` is the word.
    Kind(QueryWord<'a>),
    /// The attribute is there.
    Has(QueryWord<'a>),
    /// The attribute equals the value.
    Equals(QueryWord<'a>, QueryWord<'a>),
    /// An `input` with `checked`.
    Checked,
    /// An `input` without `checked`.
    Unchecked,
    /// A control without `disabled`.
    Enabled,
    /// A control with `disabled`.
    Disabled,
    /// The node that has the focus.
    Focus,
}

/// A filter on the list of nodes that were found.
#[derive(Clone, Copy, PartialEq, Eq, Drop)]
pub enum ListFilter {
    /// The first.
    First,
    /// All but the first.
    Rest,
    /// Those at the places 0, 2, 4 and so on.
    Even,
    /// Those at the places 1, 3, 5 and so on.
    Odd,
}

/// A filter of a step.
#[derive(Drop)]
pub enum StepFilter<'a> {
    Node(Filter<'a>),
    List(ListFilter),
}

/// A step: what it finds, and which of that it keeps.
#[derive(Drop)]
pub struct QueryStep {
    pub hunter: Hunter,
    pub filters: Filters,
}

impl Model for QueryStep {
    ghost use Rattle.query_grammar.specs.Steps.{Step};

    ghost Value = { Step };

    ghost view = { λ s. record { hunter = s.hunter; filters = s.filters } };
}

/// A query: its steps in order.
#[derive(Drop)]
pub struct Query {
    pub steps: Vec<QueryStep>,
}

impl Model for Query {
    ghost use Rattle.std.specs.Prelude.{List};
    ghost use Rattle.query_grammar.specs.Steps.{Step};

    ghost Value = { List Step };

    ghost view = { λ q. q.steps.items };
}
