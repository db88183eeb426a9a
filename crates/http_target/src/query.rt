//! The query of a request: its pairs, and what they say.
ghost use Rattle.std.specs.Prelude.{◌≡◌, ◌++◌, ◌∷◌, [], IfOk, OnOk, option_map};
ghost use Rattle.std.specs.List.{list_all, filter_map};
ghost use Rattle.filter_criteria.specs.Conditions.{no_conditions};
ghost use Rattle.filter_criteria.specs.declared.condition.Condition.TheVariants.{OneLabel};
ghost use Rattle.filter_criteria.specs.declared.condition.Condition.TheVariants.{OneType, Usage};
ghost use Rattle.http_target.specs.Chain.{ReadsAs};
ghost use Rattle.http_target.specs.Said.{said_by, query_said};
ghost use Rattle.http_target.specs.Queries as spec;

use crate::target::{before, behind, is_utf8};
use crate::{BindFault, OutOfMemory};
use filter_criteria::{Condition, FilterParts, FilterUsage, Sort};
use form_urlencoded::{decode, raw_pairs};
use m2m_names::{Op, is_type_number, read_stamp};
use m2m_value::{Labels, Numbers, Text, is_label_text};
use primitive_json::{
    Member, address_forms, has_result, is_among, number_spelled, result_contents, retrieves,
};
use std::alloc::Global;

/// A key and its value.
type Pair = (Text, Text);

/// What a key stands for.
#[derive(Clone, Copy)]
pub(crate) enum Key {
    ResultContent,
    ResponseType,
    DesiredForm,
    /// It is accepted and never read.
    Unread,
    OfFilter(Condition),
}

/// What a query says.
#[derive(Drop)]
pub struct Query {
    /// The content of the result.
    pub rcn: Option<i64>,
    /// The response type.
    pub rt: Option<i64>,
    /// The conditions of a filter, where there is one.
    pub fc: Option<FilterParts>,
    /// The form of the addresses that a discovery gives.
    pub drt: Option<i64>,
}

impl Key {
    fn named(name: &[u8]) -> Option<Key>
        ensures { result ≡ spec.key_named name.now }
    {
        if name == Member::ResultContent.name().as_bytes() {
            Some(Key::ResultContent)
        } else if name == Member::ResponseType.name().as_bytes() {
            Some(Key::ResponseType)
        } else if name == Member::DesiredForm.name().as_bytes() {
            Some(Key::DesiredForm)
        } else if is_unread(name) {
            Some(Key::Unread)
        } else {
            Some(Key::OfFilter(Condition::named(name)?))
        }
    }
}

/// Whether a key is accepted and never read.
fn is_unread(name: &[u8]) -> bool
    ensures { result ≡ spec.is_unread name.now }
{
    matches!(name, b"da" | b"rp")
}

fn whole_spelled(text: &[u8]) -> Option<i64>
    ensures { result ≡ spec.whole_spelled text.now }
{
    Some(number_spelled(text)? as i64)
}

/// Whether the content of the result may be so.
fn is_result(op: Op, number: i64) -> bool
    ensures { result ≡ spec.is_result op number }
{
    !has_result(op) || is_among(result_contents(op), number)
}

fn result_spelled(op: Op, text: &[u8]) -> Option<i64>
    ensures { result ≡ spec.result_spelled op text.now }
{
    let number = whole_spelled(text)?;
    if is_result(op, number) {
        Some(number)
    } else {
        None
    }
}

fn form_spelled(text: &[u8]) -> Option<i64>
    ensures { result ≡ spec.form_spelled text.now }
{
    let number = whole_spelled(text)?;
    if is_among(address_forms(), number) {
        Some(number)
    } else {
        None
    }
}

fn usage_spelled(text: &[u8]) -> Option<FilterUsage>
    ensures { result ≡ spec.usage_spelled text.now }
{
    FilterUsage::numbered(whole_spelled(text)?)
}

/// What stands between single spaces.
fn words_of(alloc: Global, text: &[u8]) -> Result<Vec<Text>, OutOfMemory>
    ensures { IfOk result (λ words. words.items ≡ spec.words_of text.now) }
{
    let mut words = Vec::new(alloc);
    let mut rest = text;
    while let Some(next) = behind(b' ', rest) {
        words.push(Text::from_slice(alloc, before(b' ', rest))?)?;
        rest = next;
    }
    words.push(Text::from_slice(alloc, rest)?)?;
    Ok(words)
}

fn spells_label(text: &[u8]) -> bool
    ensures { result ≡ spec.spells_label text.now }
{
    is_label_text(text) && is_utf8(text)
}

fn are_labels(words: &[Text]) -> bool
    ensures { result ≡ list_all spec.spells_label words.now }
{
    words.iter().all(|word| spells_label(word.entries()))
}

/// The labels that the words of a text are, where each is one.
fn labels_spelled(alloc: Global, text: &[u8]) -> Result<Option<Vec<Text>>, OutOfMemory>
    ensures { IfOk result (λ labels. option_map (λ l. l.items) labels
        ≡ spec.labels_spelled text.now) }
{
    let words = words_of(alloc, text)?;
    if are_labels(&words) {
        Ok(Some(words))
    } else {
        Ok(None)
    }
}

/// The number of a type.
fn type_spelled(text: &[u8]) -> Option<u64>
    ensures { result ≡ spec.type_spelled text.now }
{
    let number = number_spelled(text)?;
    if is_type_number(number) {
        Some(number)
    } else {
        None
    }
}

fn is_type(text: &[u8]) -> bool
    ensures { result ≡ spec.is_type_text text.now }
{
    type_spelled(text).is_some()
}

fn are_types(words: &[Text]) -> bool
    ensures { result ≡ list_all spec.is_type_text words.now }
{
    words.iter().all(|word| is_type(word.entries()))
}

/// Puts the number of a type that a word is behind the others.
fn push_type_number(types: &mut Vec<u64>, word: &Text) -> Result<(), OutOfMemory>
    ensures { OnOk result (types.new.items
        ≡ types.old.items ++ filter_map spec.type_spelled (word.now ∷ [])) }
{
    if let Some(number) = type_spelled(word.entries()) {
        types.push(number)?;
    }
    Ok(())
}

/// The numbers of types that words are.
fn types_of(alloc: Global, words: &[Text]) -> Result<Vec<u64>, OutOfMemory>
    ensures { IfOk result (λ types. types.items ≡ filter_map spec.type_spelled words.now) }
{
    let mut types = Vec::with_capacity(alloc, words.len())?;
    for word in words {
        push_type_number(&mut types, word)?;
    }
    Ok(types)
}

/// The numbers of types that the words of a text are, where each is one.
fn types_spelled(alloc: Global, text: &[u8]) -> Result<Option<Vec<u64>>, OutOfMemory>
    ensures { IfOk result (λ types. option_map (λ t. t.items) types ≡ spec.types_spelled text.now) }
{
    let words = words_of(alloc, text)?;
    if are_types(&words) {
        Ok(Some(types_of(alloc, &words)?))
    } else {
        Ok(None)
    }
}

/// A place that is empty, with a value that is there.
fn placed<T: Copy>(place: Option<T>, value: Option<T>) -> Option<Option<T>>
    ensures { result ≡ spec.placed place value }
{
    match (place, value) {
        (None, Some(value)) => Some(Some(value)),
        _ => None,
    }
}

/// The labels with these behind them.
fn with_labels(labels: Labels, more: Vec<Text>) -> Result<Labels, OutOfMemory>
    ensures { IfOk result (λ all. all ≡ labels ++ more.items) }
{
    let mut more = more;
    let mut texts = labels.into_vec();
    texts.append(&mut more)?;
    Ok(Labels::of(texts))
}

/// The numbers of types with these behind them.
fn with_types(types: Numbers, more: &[u64]) -> Result<Numbers, OutOfMemory>
    ensures { IfOk result (λ all. all ≡ types ++ more.now) }
{
    let mut numbers = types.into_vec();
    numbers.extend_from_slice(more)?;
    Ok(Numbers::of(numbers))
}

/// The filter with one more condition on a moment or a number.
fn with_number(parts: FilterParts, condition: Condition, n: Option<u64>) -> Option<FilterParts>
    ensures { result ≡ spec.with_number condition n parts }
{
    match condition {
        Condition::CreatedAfter => Some(FilterParts {
            cra: placed(parts.cra, n)?,
            ..parts
        }),
        Condition::CreatedBefore => Some(FilterParts {
            crb: placed(parts.crb, n)?,
            ..parts
        }),
        Condition::ExpireAfter => Some(FilterParts {
            exa: placed(parts.exa, n)?,
            ..parts
        }),
        Condition::ExpireBefore => Some(FilterParts {
            exb: placed(parts.exb, n)?,
            ..parts
        }),
        Condition::Limit => Some(FilterParts {
            lim: placed(parts.lim, n)?,
            ..parts
        }),
        Condition::ModifiedSince => Some(FilterParts {
            ms: placed(parts.ms, n)?,
            ..parts
        }),
        Condition::StateTagBigger => Some(FilterParts {
            stb: placed(parts.stb, n)?,
            ..parts
        }),
        Condition::StateTagSmaller => Some(FilterParts {
            sts: placed(parts.sts, n)?,
            ..parts
        }),
        Condition::SizeAbove => Some(FilterParts {
            sza: placed(parts.sza, n)?,
            ..parts
        }),
        Condition::SizeBelow => Some(FilterParts {
            szb: placed(parts.szb, n)?,
            ..parts
        }),
        Condition::UnmodifiedSince => Some(FilterParts {
            us: placed(parts.us, n)?,
            ..parts
        }),
        Condition::Usage | Condition::OneLabel | Condition::OneType => None,
    }
}

/// The filter with how it is used.
fn with_usage(parts: FilterParts, text: &[u8]) -> Option<FilterParts>
    ensures { result ≡ spec.with_condition Usage text.now parts }
{
    Some(FilterParts {
        fu: placed(parts.fu, usage_spelled(text))?,
        ..parts
    })
}

/// The filter with the labels of one more text.
fn with_label_text(
    alloc: Global,
    parts: FilterParts,
    text: &[u8],
) -> Result<Option<FilterParts>, OutOfMemory>
    ensures { IfOk result (λ said. said ≡ spec.with_condition OneLabel text.now parts) }
{
    match labels_spelled(alloc, text)? {
        Some(labels) => Ok(Some(FilterParts {
            lbl: with_labels(parts.lbl, labels)?,
            ..parts
        })),
        None => Ok(None),
    }
}

/// The filter with the numbers of types of one more text.
fn with_type_text(
    alloc: Global,
    parts: FilterParts,
    text: &[u8],
) -> Result<Option<FilterParts>, OutOfMemory>
    ensures { IfOk result (λ said. said ≡ spec.with_condition OneType text.now parts) }
{
    match types_spelled(alloc, text)? {
        Some(types) => Ok(Some(FilterParts {
            ty: with_types(parts.ty, &types)?,
            ..parts
        })),
        None => Ok(None),
    }
}

/// The filter with one more condition, where the text is that of its sort.
fn with_condition(
    alloc: Global,
    parts: FilterParts,
    condition: Condition,
    text: &[u8],
) -> Result<Option<FilterParts>, OutOfMemory>
    ensures { IfOk result (λ said. said ≡ spec.with_condition condition text.now parts) }
{
    match condition.sort() {
        Sort::Moment => Ok(with_number(parts, condition, read_stamp(text))),
        Sort::Count => Ok(with_number(parts, condition, number_spelled(text))),
        Sort::Use => Ok(with_usage(parts, text)),
        Sort::Labels => with_label_text(alloc, parts, text),
        Sort::Types => with_type_text(alloc, parts, text),
    }
}

/// A filter without conditions.
fn no_conditions(alloc: Global) -> FilterParts
    ensures { result ≡ no_conditions }
{
    FilterParts {
        crb: None,
        cra: None,
        ms: None,
        us: None,
        sts: None,
        stb: None,
        exb: None,
        exa: None,
        lbl: Labels::of(Vec::new(alloc)),
        ty: Numbers::of(Vec::new(alloc)),
        sza: None,
        szb: None,
        fu: None,
        lim: None,
    }
}

/// The query with one more condition.
fn with_filter(
    alloc: Global,
    query: Query,
    condition: Condition,
    text: &[u8],
) -> Result<Option<Query>, OutOfMemory>
    ensures { IfOk result (λ said. said ≡ spec.with_filter condition text.now query) }
{
    let Query { rcn, rt, fc, drt } = query;
    let parts = match fc {
        Some(parts) => parts,
        None => no_conditions(alloc),
    };
    match with_condition(alloc, parts, condition, text)? {
        Some(parts) => Ok(Some(Query {
            rcn,
            rt,
            fc: Some(parts),
            drt,
        })),
        None => Ok(None),
    }
}

fn with_result(query: Query, number: Option<i64>) -> Option<Query>
    ensures { result ≡ spec.with_result number query }
{
    Some(Query {
        rcn: placed(query.rcn, number)?,
        ..query
    })
}

fn with_response(query: Query, number: Option<i64>) -> Option<Query>
    ensures { result ≡ spec.with_response number query }
{
    Some(Query {
        rt: placed(query.rt, number)?,
        ..query
    })
}

fn with_form(query: Query, number: Option<i64>) -> Option<Query>
    ensures { result ≡ spec.with_form number query }
{
    Some(Query {
        drt: placed(query.drt, number)?,
        ..query
    })
}

/// The query with what one more key says.
fn with_key(
    alloc: Global,
    op: Op,
    query: Query,
    key: Key,
    text: &[u8],
) -> Result<Option<Query>, OutOfMemory>
    ensures { IfOk result (λ said. said ≡ spec.with_key op key text.now query) }
{
    match key {
        Key::ResultContent => Ok(with_result(query, result_spelled(op, text))),
        Key::ResponseType => Ok(with_response(query, whole_spelled(text))),
        Key::DesiredForm => Ok(with_form(query, form_spelled(text))),
        Key::Unread => Ok(Some(query)),
        Key::OfFilter(condition) if retrieves(op) => with_filter(alloc, query, condition, text),
        Key::OfFilter(_) => Ok(None),
    }
}

/// What a pair says, where it has a key that is served.
fn said_more(alloc: Global, op: Op, query: Query, pair: &Pair) -> Result<Option<Query>, OutOfMemory>
    ensures { IfOk result (λ said. said ≡ spec.said_more op pair.now query) }
{
    match Key::named(pair.0.entries()) {
        Some(key) => with_key(alloc, op, query, key, pair.1.entries()),
        None => Ok(None),
    }
}

/// The query with what one more pair says.
fn pair_said(alloc: Global, op: Op, query: Query, pair: &Pair) -> Result<Query, BindFault>
    ensures { ReadsAs (λ said. said) result (spec.pair_said op pair.now query) }
{
    match said_more(alloc, op, query, pair)? {
        Some(said) => Ok(said),
        None => Err(BindFault::Query(Text::from_slice(alloc, pair.0.entries())?)),
    }
}

/// What the pairs say behind what was said.
fn said_by(alloc: Global, op: Op, pairs: &[Pair]) -> Result<Query, BindFault>
    ensures { ReadsAs (λ said. said) result (said_by op pairs.now spec.nothing_said) }
{
    let mut query = Query {
        rcn: None,
        rt: None,
        fc: None,
        drt: None,
    };
    for pair in pairs {
        query = pair_said(alloc, op, query, pair)?;
    }
    Ok(query)
}

/// The text that a key or a value stands for.
fn decoded(alloc: Global, bytes: &[u8]) -> Result<Text, OutOfMemory>
    ensures { IfOk result (λ text. text ≡ spec.decoded bytes.now) }
{
    let text = decode(alloc, bytes)?;
    Text::from_slice(alloc, text.as_str().as_bytes())
}

fn decoded_pair(alloc: Global, key: &[u8], value: &[u8]) -> Result<Pair, OutOfMemory>
    ensures { IfOk result (λ pair. pair ≡ spec.decoded_pair (key.now, value.now)) }
{
    let key = decoded(alloc, key)?;
    Ok((key, decoded(alloc, value)?))
}

/// The pairs of a query.
fn decoded_pairs(alloc: Global, query: &[u8]) -> Result<Vec<Pair>, OutOfMemory>
    ensures { IfOk result (λ pairs. pairs.items ≡ spec.decoded_pairs query.now) }
{
    let mut pairs = Vec::new(alloc);
    let mut left = raw_pairs(query);
    while let Some(pair) = left.next() {
        pairs.push(decoded_pair(alloc, pair.0, pair.1)?)?;
    }
    Ok(pairs)
}

/// What a query says on an operation.
pub fn query_said(alloc: Global, op: Op, query: &[u8]) -> Result<Query, BindFault>
    ensures { ReadsAs (λ said. said) result (query_said op query.now) }
{
    let pairs = decoded_pairs(alloc, query)?;
    said_by(alloc, op, &pairs)
}
