//! The parameters that a request gives.

ghost use Rattle.std.specs.Prelude.{◌≡◌, ◌++◌, IfOk, OnOk, option_map};
ghost use Rattle.hw_values.specs.Forms as spec;
ghost use Rattle.hw_values.specs.Forms.{any_given, is_given, newer, or_bad, pairs_of, parameters, text_given};
ghost use Rattle.hw_values.specs.Readings.{Gives};

use crate::fault::{NoValue, ValueFault};
use crate::param::Param;
use crate::value::FormValue;
use ev_base::PlainText;
use std::alloc::{AllocError, Global};
use std::marker::Model;

/// Names with their values, those of a query and behind them those of a body. Bytes that are no
/// UTF-8 are replaced, as in the web's forms.
#[derive(Debug, Drop)]
pub struct Form {
    pairs: Vec<(PlainText, PlainText)>,
}

impl Model for Form {
    ghost use Rattle.std.specs.Prelude.{List, ℕ};

    ghost Value = { List (List ℕ × List ℕ) };

    ghost view = { λ form. form.pairs.items };
}

impl Form {
    pub fn read(alloc: Global, query: &[u8], body: &[u8]) -> Result<Form, AllocError>
        ensures { IfOk result (λ form. form ≡ parameters query.now body.now) }
    {
        let mut pairs = Vec::new(alloc);
        add_pairs(alloc, &mut pairs, query)?;
        add_pairs(alloc, &mut pairs, body)?;
        Ok(Form { pairs })
    }

    /// The text of a parameter. Of equal names the last counts.
    #[tactic(auto, unfolding(crate::specs::Forms::text_given))]
    pub fn text(&self, param: Param) -> Option<&str>
        ensures { option_map (λ text. text.now) result ≡ text_given param self.now }
    {
        let name = param.name();
        let mut found = None;
        for pair in &self.pairs {
            found = newer(name, found, pair);
        }
        found
    }

    pub fn has(&self, param: Param) -> bool
        ensures { result ≡ is_given self.now param }
    {
        self.text(param).is_some()
    }

    /// Whether one of the parameters is given.
    pub fn has_any(&self, params: &[Param]) -> bool
        ensures { result ≡ any_given params.now self.now }
    {
        params.iter().any(|param| self.has(*param))
    }

    /// The value of a parameter that has to be given.
    pub fn needed<T: FormValue>(&self, alloc: Global, param: Param) -> Result<T, ValueFault>
        ensures { Gives result (spec.needed T.spelled param self.now) }
    {
        match self.text(param) {
            Some(text) => value_of(alloc, param, text),
            None => Err(ValueFault::Missing(param)),
        }
    }

    /// The value of a parameter that may be given.
    pub fn optional<T: FormValue>(
        &self,
        alloc: Global,
        param: Param,
    ) -> Result<Option<T>, ValueFault>
        ensures { Gives result (spec.optional T.spelled param self.now) }
    {
        match self.text(param) {
            Some(text) => Ok(Some(value_of(alloc, param, text)?)),
            None => Ok(None),
        }
    }
}

// Puts the pairs of a form behind those.
fn add_pairs(
    alloc: Global,
    pairs: &mut Vec<(PlainText, PlainText)>,
    form: &[u8],
) -> Result<(), AllocError>
    ensures { OnOk result (pairs.new.items ≡ pairs.old.items ++ pairs_of form.now) }
{
    for pair in form_urlencoded::parse(alloc, form).into_owned() {
        let (name, value) = pair?;
        pairs.push((PlainText::new(name), PlainText::new(value)))?;
    }
    Ok(())
}

// The value of the pair where it has this name, and else the one before.
fn newer<'a>(
    name: &str,
    before: Option<&'a str>,
    pair: &'a (PlainText, PlainText),
) -> Option<&'a str>
    ensures { option_map (λ text. text.now) result
        ≡ newer name.now (option_map (λ text. text.now) before.entry) pair.now }
{
    if pair.0.as_str() == name {
        Some(pair.1.as_str())
    } else {
        before
    }
}

// The value of a parameter that has this text.
fn value_of<T: FormValue>(alloc: Global, param: Param, text: &str) -> Result<T, ValueFault>
    ensures { Gives result (or_bad param (T.spelled text.now)) }
{
    match T::read(alloc, text) {
        Ok(value) => Ok(value),
        Err(NoValue::NotOne) => Err(ValueFault::BadValue(param)),
        Err(NoValue::NoMemory) => Err(ValueFault::NoMemory),
    }
}
