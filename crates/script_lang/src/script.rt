//! Typed scripts.
ghost use Rattle.std.specs.Prelude.{◌≡◌, ◌<◌, ◌^◌, length, map, slice_get, Some};
ghost use Rattle.script_lang.specs.Views.{statement_of};
ghost use Rattle.script_lang.specs.Sound.{IsTypedScript, AreSmallLines};

use crate::line::Line;
use std::marker::Model;

/// A script whose names, kinds, types and shapes fit, and whose functions have fewer than 2^32 nodes.
/// It is seen as the list of its lines.
#[derive(Drop)]
pub struct Script {
    lines: Vec<Line>,
}

impl Model for Script {
    ghost use Rattle.std.specs.Prelude.{List, ◌<◌, ◌^◌, length, map};
    ghost use Rattle.std.specs.Coded.{codes};
    ghost use Rattle.script_lang.specs.declared.line.Line.{Line};
    ghost use Rattle.script_lang.specs.contracts.line.Line as e;
    ghost use Rattle.script_lang.specs.Views.{statement_of};
    ghost use Rattle.script_lang.specs.Sound.{IsTypedScript, AreSmallLines};

    ghost Value = { List Line };

    ghost coded = { Prim.hlevel (codes, e.the_row.coded) };

    ghost view = { λ s. s.lines.items };

    ghost invariant = { λ s. (length s.lines.items < 2 ^ 32) × IsTypedScript (map statement_of s.lines.items) × AreSmallLines (map statement_of s.lines.items) };
}

impl Script {
    pub(crate) fn new(lines: Vec<Line>) -> Script
        requires few { length lines.items < 2 ^ 32 }
        requires typed { IsTypedScript (map statement_of lines.items) }
        requires small { AreSmallLines (map statement_of lines.items) }
        ensures { result ≡ lines.items }
    {
        Script { lines }
    }

    /// The lines, in order.
    pub fn as_slice(&self) -> &[Line]
        ensures lines { result.now ≡ self.now }
        ensures typed { IsTypedScript (map statement_of self.now) }
        ensures small { AreSmallLines (map statement_of self.now) }
    {
        &self.lines
    }

    /// How many lines are neither empty nor comments.
    pub fn lines(&self) -> u32
        ensures count { result ≡ length self.now }
        ensures typed { IsTypedScript (map statement_of self.now) }
        ensures small { AreSmallLines (map statement_of self.now) }
    {
        self.lines.len() as u32
    }

    /// The line of this number, from 0 on.
    pub fn line(&self, i: u32) -> &Line
        requires within { i < length self.now }
        ensures value { slice_get self.now i ≡ Some result.now }
        ensures typed { IsTypedScript (map statement_of self.now) }
        ensures small { AreSmallLines (map statement_of self.now) }
    {
        &self.lines[i as usize]
    }
}
