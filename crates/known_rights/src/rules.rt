//! Whom rules are for, and what they give the asker.
ghost use Rattle.std.specs.Prelude.{◌≡◌, map};
ghost use Rattle.policy_eval.specs.Forms.{last_byte};
ghost use Rattle.policy_eval.specs.Originators.{does_name, fits_pattern};
ghost use Rattle.policy_eval.specs.Rights.{is_subject, with_rule, with_rules};
ghost use Rattle.policy_eval.specs.Rules as spec;
ghost use Rattle.policy_eval.specs.Rules.{named, texts_of};

use crate::asker::Asker;
use m2m_value::Val;
use policy_eval::{bits_of, entries_of, last_byte, may_name};

fn does_fit(asker: &Asker, entry: &[u8]) -> bool
    ensures { result ≡ fits_pattern asker.now.home asker.now.originator entry.now }
{
    entry.ends_with(b"*".as_slice()) && asker.has_front(&entry[..entry.len() - 1])
}

fn names(asker: &Asker, entry: &[u8]) -> bool
    ensures { result ≡ does_name asker.now.home asker.now.originator entry.now }
{
    entry == b"all".as_slice()
        || entry == b"*".as_slice()
        || asker.is_same(entry)
        || does_fit(asker, entry)
}

// Whether an entry of `acor` names the asker, whose full form ends in this byte. Most entries that
// don't differ in their last byte.
#[tactic(auto, using(policy_eval::proofs::LastLemmas::names_nobody))]
fn does_name(asker: &Asker, last: u8, entry: &[u8]) -> bool
    requires { last ≡ last_byte asker.now.originator }
    ensures { result ≡ does_name asker.now.home asker.now.originator entry.now }
{
    may_name(last, entry) && names(asker, entry)
}

// Whether an entry of `acor` names the asker.
fn name_one(asker: &Asker, entries: &[Val]) -> bool
    ensures { result
        ≡ is_subject asker.now.home asker.now.originator (named (texts_of entries.now)) }
{
    let last = last_byte(asker.originator());
    for entry in entries {
        if let Some(text) = entry.as_text() {
            if does_name(asker, last, text.entries()) {
                return true;
            }
        }
    }
    false
}

fn bits_with(asker: &Asker, bits: u32, rule: &Val) -> u32
    ensures { result
        ≡ with_rule asker.now.home asker.now.originator bits (spec.stated_rule rule.now) }
{
    if name_one(asker, entries_of(rule)) {
        bits | bits_of(rule)
    } else {
        bits
    }
}

/// The bits, and those that rules give the asker besides.
pub fn bits_by_rules(asker: &Asker, rules: &[Val]) -> u32
    ensures { result ≡ with_rules asker.now.home asker.now.originator 0
        (map spec.stated_rule rules.now) }
{
    let mut bits = 0;
    for rule in rules {
        bits = bits_with(asker, bits, rule);
    }
    bits
}
