// The values of a text, and the items of its arrays.
ghost use Rattle.std.specs.Prelude.{◌≡◌, ◌<◌, length, Some, None, is_some, option_map, option_and_then, OnSome, IsSome};
ghost use Rattle.serde_json.specs.Find.{get, as_str, as_number, as_bool, as_array, as_object, as_i64};
ghost use Rattle.serde_json.specs.Data.{no_members};
ghost use Rattle.sci_json.specs.View.{view, items_view, data_of, NextItem, members_view, put_all, NextMember};

use crate::document::number::whole_number;
use json::Element;
use std::marker::Model;

/// A value where it stands in a text that was read.
#[derive(Drop)]
pub struct Value<'t, 'a> {
    element: Element<'t, 'a>,
}

impl<'t, 'a> Model for Value<'t, 'a> {
    ghost use Rattle.std.specs.Prelude.{List, IsSome};
    ghost use Rattle.json.specs.Token.{Token, tokens_code};
    ghost use Rattle.sci_json.specs.View.{data_of};

    ghost Value = { List Token };

    ghost coded = { tokens_code };

    ghost view = { λ v. v.element };

    ghost invariant = { λ v. IsSome (data_of v.element) };
}

impl<'t, 'a> Value<'t, 'a> {
    #[inline(always)]
    pub(crate) fn of(element: Element<'t, 'a>) -> Value<'t, 'a>
        requires { IsSome (data_of element) }
        ensures { result ≡ element.entry }
    {
        Value { element }
    }

    /// The field of that name, the last of those that have it. None where there is none, or where this is no object.
    #[inline]
    pub fn get(&self, name: &str) -> Option<Value<'t, 'a>>
        ensures { option_map view result ≡ get name.now (view self.now) }
    {
        match self.element.get(name) {
            Some(element) => Some(Value { element }),
            None => None,
        }
    }

    /// The text, where this is one.
    #[inline]
    pub fn as_str(&self) -> Option<&'a str>
        ensures { option_map (λ s. s.now) result ≡ as_str (view self.now) }
    {
        self.element.as_str()
    }

    /// The whole number, where this is one that fits. `-0` is none, nor is a number with a point or an exponent.
    #[inline]
    pub fn as_i64(&self) -> Option<i64>
        ensures { result ≡ option_and_then as_i64 (as_number (view self.now)) }
    {
        match self.element.as_number() {
            Some(text) => whole_number(text),
            None => None,
        }
    }

    /// The truth value, where this is one.
    #[inline]
    pub fn as_bool(&self) -> Option<bool>
        ensures { result ≡ as_bool (view self.now) }
    {
        self.element.as_bool()
    }

    /// Whether this is an object.
    #[inline]
    pub fn is_object(&self) -> bool
        ensures { result ≡ is_some (as_object (view self.now)) }
    {
        self.element.members().is_some()
    }

    /// The items, where this is an array.
    #[inline]
    pub fn items(&self) -> Option<Items<'t, 'a>>
        ensures { option_map items_view result ≡ as_array (view self.now) }
    {
        match self.element.items() {
            Some(items) => Some(Items { items }),
            None => None,
        }
    }

    /// The members, where this is an object. Of members with one name the last counts.
    #[inline]
    pub fn members(&self) -> Option<Members<'t, 'a>>
        ensures { option_map (λ ms. put_all (members_view ms) no_members) result
            ≡ as_object (view self.now) }
    {
        match self.element.members() {
            Some(members) => Some(Members { members }),
            None => None,
        }
    }
}

/// The items of an array from one of them on.
#[derive(Drop)]
pub struct Items<'t, 'a> {
    items: json::Items<'t, 'a>,
}

impl<'t, 'a> Model for Items<'t, 'a> {
    ghost use Rattle.std.specs.Prelude.{List, IsSome};
    ghost use Rattle.json.specs.Token.{Token, tokens_code};
    ghost use Rattle.sci_json.specs.View.{items_of};

    ghost Value = { List Token };

    ghost coded = { tokens_code };

    ghost view = { λ i. i.items };

    ghost invariant = { λ i. IsSome (items_of i.items) };
}

impl<'t, 'a> Items<'t, 'a> {
    /// The next item, which is taken. None at the end.
    #[inline]
    pub fn next(&mut self) -> Option<Value<'t, 'a>>
        ensures value { NextItem (items_view self.old) (option_map view result)
            (items_view self.new) }
        ensures shorter { OnSome result (length self.new < length self.old) }
    {
        match self.items.next() {
            Some(element) => Some(Value { element }),
            None => None,
        }
    }
}

/// The members of an object from one of them on, in the order of the text.
#[derive(Drop)]
pub struct Members<'t, 'a> {
    members: json::Members<'t, 'a>,
}

impl<'t, 'a> Model for Members<'t, 'a> {
    ghost use Rattle.std.specs.Prelude.{List, IsSome};
    ghost use Rattle.json.specs.Token.{Token, tokens_code};
    ghost use Rattle.sci_json.specs.View.{members_of};

    ghost Value = { List Token };

    ghost coded = { tokens_code };

    ghost view = { λ m. m.members };

    ghost invariant = { λ m. IsSome (members_of m.members) };
}

impl<'t, 'a> Members<'t, 'a> {
    /// The name and the value of the next member, which is taken. None at the end.
    #[inline]
    pub fn next(&mut self) -> Option<(&'a str, Value<'t, 'a>)>
        ensures value { NextMember (members_view self.old)
            (option_map (λ m. (m.0.now, view m.1)) result) (members_view self.new) }
        ensures shorter { OnSome result (length self.new < length self.old) }
    {
        match self.members.next() {
            Some((name, element)) => Some((name, Value { element })),
            None => None,
        }
    }
}
