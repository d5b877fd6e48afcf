// Sets of up to sixteen processes, as the bits of a number: bit i stands for process i,
// counted from 0. And numbers from 1.
#![tactic(auto)]

ghost use Rattle.std.specs.Prelude.{◌≡◌, ◌<◌, ◌≤◌};
ghost use Rattle.std.specs.Iterator.{YieldsFirst, item_count};
ghost use Rattle.sets.specs.Truth.{one_to};
ghost use Rattle.sets.specs.Set.{has, insert_of, remove_of, union_of, intersection_of};
ghost use Rattle.sets.specs.Set.{difference_of, all_of, empty_set, lowest_of, size_of, within, members_of};

use std::marker::Model;

pub fn empty() -> u16
    ensures { result ≡ empty_set }
{
    0
}

// The processes 0 to n - 1.
pub fn all(n: usize) -> u16
    requires { n ≤ 16 }
    ensures { result ≡ all_of n }
{
    ((1u32 << n) - 1) as u16
}

pub fn member(m: u16, i: usize) -> bool
    requires { i < 16 }
    ensures { result ≡ has m i }
{
    (m >> i) % 2 == 1
}

pub fn insert(m: u16, i: usize) -> u16
    requires { i < 16 }
    ensures { result ≡ insert_of m i }
{
    m | 1 << i
}

pub fn remove(m: u16, i: usize) -> u16
    requires { i < 16 }
    ensures { result ≡ remove_of m i }
{
    difference(m, 1 << i)
}

pub fn union(a: u16, b: u16) -> u16
    ensures { result ≡ union_of a b }
{
    a | b
}

pub fn intersection(a: u16, b: u16) -> u16
    ensures { result ≡ intersection_of a b }
{
    a & b
}

// The members of a that are not in b.
pub fn difference(a: u16, b: u16) -> u16
    ensures { result ≡ difference_of a b }
{
    a & !b
}

// The lowest member.
pub fn lowest(m: u16) -> usize
    requires { 0 < m }
    ensures { (result ≡ lowest_of m) × (result < 16) }
{
    m.trailing_zeros() as usize
}

// All members but the lowest.
pub fn rest(m: u16) -> u16
    requires { 0 < m }
    ensures { result ≡ remove_of m (lowest_of m) }
{
    m & (m - 1)
}

// The members of a set that are left, the lowest first.
#[derive(Drop)]
pub struct Iter {
    left: u16,
}

impl Model for Iter {
    ghost use Rattle.std.specs.Prelude.{List, ℕ};
    ghost use Rattle.sets.specs.Set.{members_of};

    ghost Value = { List ℕ };

    ghost view = { λ it. members_of it.left };
}

impl Iterator for Iter {
    type Item = usize;

    ghost next_gives = { YieldsFirst (λ rest. rest) };

    ghost remaining = { item_count (λ rest. rest) };

    fn next(&mut self) -> Option<usize> {
        if self.left == 0 {
            return None;
        }
        let first = lowest(self.left);
        self.left = rest(self.left);
        Some(first)
    }
}

// The members, for a `for`.
pub fn members(m: u16) -> Iter
    ensures { result ≡ members_of m }
{
    Iter { left: m }
}

pub fn size(m: u16) -> u32
    ensures { result ≡ size_of m }
{
    m.count_ones()
}

// No member at or past n.
pub fn set_within(n: u8, m: u16) -> bool
    requires { n ≤ 16 }
    ensures { result ≡ within n m }
{
    u32::from(m) < 1 << n
}

// x is a number from 1 to k.
pub fn one_to(k: u8, x: u8) -> bool
    ensures { result ≡ one_to k x }
{
    (1..=k).contains(&x)
}
