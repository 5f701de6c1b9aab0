//! Whether the parts of a grammar fit each other.
ghost use Rattle.std.specs.Prelude.{◌≡◌, ◌&&◌, ℕ, ◌≤◌, ◌<◌, ◌+◌, true, length, nat_le, nat_lt, slice_get, map, codes, List, ◌∷◌, [], IfOk, IfSome, OnOk};
ghost use Rattle.std.specs.List.{list_all};
ghost use Rattle.std.specs.Option.{option_copied};
ghost use Rattle.gft_pmcfg.specs.Ranges.{has_function, is_index, is_type, are_types, is_category, is_function, are_categories, is_plain, is_abstract, are_infos, is_info, is_single, begins_with_literals, is_of, are_of, is_symbol, are_sequences, is_listed, fits, is_production, is_def, is_ref, is_concrete, is_in_range};
ghost use Rattle.gft_pmcfg.specs.Dimensions.{dim_of, dims_of};
ghost use Rattle.gft_pmcfg.specs.Nonterminals.{dimension_of};

use crate::concrete::{Concrete, Def, Info, Prod, Ref};
use crate::signature::{AType, Abstract, Cat, Fun};
use gft_core::{NoMemory, Shared, Sym, Tree};
use sqlite_items::Items;
use std::alloc::Global;

/// Whether some function has the name. It looks at each in turn.
fn has_function(funs: &[Fun], name: &str) -> bool
    ensures { result ≡ has_function funs.now name.now }
{
    funs.iter().any(|f| f.name.as_str() == name)
}

/// Whether the names of an index are functions and its variables those of the first n arguments.
#[cycle(index)]
fn is_index(funs: &[Fun], n: usize, tree: &Tree) -> bool
    ensures { result ≡ is_index funs.now n tree.now }
{
    match tree {
        Tree::App(f, rest) => has_function(funs, f.as_str())
            && are_indices(funs, n, rest.as_slice()),
        Tree::Int(_) => true,
        Tree::Str(_) => true,
        Tree::Hole(k) => 1 <= *k && *k as usize <= n,
    }
}

#[cycle(index)]
fn are_indices(funs: &[Fun], n: usize, trees: &[Tree]) -> bool
    ensures { result ≡ list_all (is_index funs.now n) trees.now }
{
    'each: for tree in trees {
        if !is_index(funs, n, tree) {
            return false;
        }
    }
    true
}

/// Whether the type is a category with indices over the first n arguments.
fn is_type(a: &Abstract, n: usize, t: &AType) -> bool
    ensures { result ≡ is_type a.now n t.now }
{
    (t.cat as usize) < a.cats.len() && are_indices(a.funs.as_slice(), n, t.args.as_slice())
}

/// Whether each type is over the ones before it.
fn are_types(a: &Abstract, types: &[AType]) -> bool
    ensures { result ≡ are_types a.now 0 types.now }
{
    'each: for n in 0..types.len() {
        if !is_type(a, n, &types[n]) {
            return false;
        }
    }
    true
}

fn is_category(a: &Abstract, cat: &Cat) -> bool
    ensures { result ≡ is_category a.now cat.now }
{
    are_types(a, cat.context.as_slice())
}

fn is_function(a: &Abstract, fun: &Fun) -> bool
    ensures { result ≡ is_function a.now fun.now }
{
    are_types(a, fun.args.as_slice()) && is_type(a, fun.args.len(), &fun.result)
}

fn is_plain(name: &str, cat: &Cat) -> bool
    ensures { result ≡ is_plain name.now cat.now }
{
    cat.name.as_str() == name && cat.context.len() == 0
}

fn are_categories(cats: &[Cat]) -> bool
    ensures { result ≡ are_categories cats.now }
{
    let Some((first, rest)) = cats.split_first() else {
        return false;
    };
    let Some((second, listed)) = rest.split_first() else {
        return false;
    };
    is_plain("Int", first) && is_plain("String", second) && listed.len() <= 16384
}

fn categories_fit(a: &Abstract, cats: &[Cat]) -> bool
    ensures { result ≡ list_all (is_category a.now) cats.now }
{
    'each: for cat in cats {
        if !is_category(a, cat) {
            return false;
        }
    }
    true
}

fn functions_fit(a: &Abstract, funs: &[Fun]) -> bool
    ensures { result ≡ list_all (is_function a.now) funs.now }
{
    'each: for fun in funs {
        if !is_function(a, fun) {
            return false;
        }
    }
    true
}

fn start_fits(a: &Abstract) -> bool
    ensures { result ≡ (are_categories a.now.cats && nat_lt a.now.start (length a.now.cats)) }
{
    are_categories(a.cats.as_slice()) && (a.start as usize) < a.cats.len()
}

fn judgements_fit(a: &Abstract) -> bool
    ensures { result ≡ (are_categories a.now.cats && nat_lt a.now.start (length a.now.cats) && list_all (is_category a.now) a.now.cats) }
{
    start_fits(a) && categories_fit(a, a.cats.as_slice())
}

fn is_abstract(a: &Abstract) -> bool
    ensures { result ≡ is_abstract a.now }
{
    judgements_fit(a) && functions_fit(a, a.funs.as_slice())
}

/// Whether the nonterminals of each category come right after those of the one before.
fn are_infos(infos: &[Info]) -> bool
    ensures { result ≡ are_infos 0 infos.now }
{
    let mut next = 0u64;
    'each: for info in infos {
        if u64::from(info.first) != next || !is_info(info) {
            return false;
        }
        next += u64::from(info.count);
    }
    true
}

fn is_info(info: &Info) -> bool
    ensures { result ≡ is_info info.now }
{
    1 <= info.count && info.count <= 1_048_576 && info.dim <= 65536
}

fn is_single(info: &Info) -> bool
    ensures { result ≡ is_single info.now }
{
    info.count == 1 && info.dim == 1
}

fn begins_with_literals(infos: &[Info]) -> bool
    ensures { result ≡ begins_with_literals infos.now }
{
    let Some((first, rest)) = infos.split_first() else {
        return false;
    };
    let Some((second, _)) = rest.split_first() else {
        return false;
    };
    is_single(first) && is_single(second)
}

/// Whether the number is a nonterminal of the category.
fn is_of(infos: &[Info], cat: u32, n: u32) -> bool
    requires { are_infos 0 infos.now ≡ true }
    ensures { result ≡ true → is_of infos.now cat n ≡ true }
{
    match infos.get(cat as usize) {
        None => false,
        Some(info) => info.first <= n && n - info.first < info.count,
    }
}

/// Whether each number is a nonterminal of its argument's category.
fn are_of(infos: &[Info], types: &[AType], args: &[u32]) -> bool
    requires { are_infos 0 infos.now ≡ true }
    ensures { result ≡ true → are_of infos.now types.now args.now ≡ true }
{
    if types.len() != args.len() {
        return false;
    }
    'each: for i in 0..types.len() {
        if !is_of(infos, types[i].cat, args[i]) {
            return false;
        }
    }
    true
}

/// The dimension of a category, 0 past the last one.
fn dim_of(infos: &[Info], cat: u32) -> u32
    ensures { result ≡ dim_of infos.now cat }
{
    match infos.get(cat as usize) {
        None => 0,
        Some(info) => info.dim,
    }
}

/// Puts the dimensions of the arguments in place of what the list holds.
fn put_dims(infos: &[Info], types: &[AType], dims: &mut Vec<u32>) -> Result<(), NoMemory>
    ensures { OnOk result (dims.new.items ≡ dims_of infos.now types.now) }
{
    dims.clear();
    'each: for t in types {
        dims.push(dim_of(infos, t.cat))?;
    }
    Ok(())
}

/// Whether the symbol is a word or a component that the argument has.
fn is_symbol(dims: &[u32], symbol: &Sym) -> bool
    ensures { result ≡ is_symbol dims.now symbol.now }
{
    match symbol {
        Sym::Tok(_) => true,
        Sym::Arg(argument, component) => match dims.get(*argument as usize) {
            None => false,
            Some(dim) => *component < *dim,
        },
    }
}

fn is_sequence(dims: &[u32], symbols: &[Sym]) -> bool
    ensures { result ≡ list_all (is_symbol dims.now) symbols.now }
{
    'each: for symbol in symbols {
        if !is_symbol(dims, symbol) {
            return false;
        }
    }
    true
}

fn sequences_fit(dims: &[u32], seqs: &[Shared<Items<Sym>>]) -> bool
    ensures { result ≡ list_all (list_all (is_symbol dims.now)) seqs.now }
{
    'each: for seq in seqs {
        if !is_sequence(dims, seq.get().as_slice()) {
            return false;
        }
    }
    true
}

fn are_sequences(dims: &[u32], dim: u32, seqs: &[Shared<Items<Sym>>]) -> bool
    ensures { result ≡ are_sequences dims.now dim seqs.now }
{
    seqs.len() == dim as usize && sequences_fit(dims, seqs)
}

/// Whether the production is one of the function.
fn fits(infos: &[Info], p: &Prod, f: &Fun, dims: &mut Vec<u32>) -> Result<bool, NoMemory>
    requires { are_infos 0 infos.now ≡ true }
    ensures { IfOk result (λ yes. yes ≡ true → fits infos.now p.now f.now ≡ true) }
{
    if !are_of(infos, f.args.as_slice(), p.args.as_slice()) {
        return Ok(false);
    }
    if !is_of(infos, f.result.cat, p.result) {
        return Ok(false);
    }
    put_dims(infos, f.args.as_slice(), dims)?;
    Ok(are_sequences(
        dims.as_slice(),
        dim_of(infos, f.result.cat),
        p.seqs.as_slice(),
    ))
}

fn is_production(
    funs: &[Fun],
    infos: &[Info],
    p: &Prod,
    dims: &mut Vec<u32>,
) -> Result<bool, NoMemory>
    requires { are_infos 0 infos.now ≡ true }
    ensures { IfOk result (λ yes. yes ≡ true → is_production funs.now infos.now p.now ≡ true) }
{
    match funs.get(p.fun as usize) {
        None => Ok(false),
        Some(f) => fits(infos, p, f, dims),
    }
}

fn productions_fit(
    alloc: Global,
    funs: &[Fun],
    infos: &[Info],
    prods: &[Prod],
) -> Result<bool, NoMemory>
    requires { are_infos 0 infos.now ≡ true }
    ensures { IfOk result (λ yes. yes ≡ true → list_all (is_production funs.now infos.now) prods.now ≡ true) }
{
    let mut dims = Vec::new(alloc);
    'each: for p in prods {
        if !is_production(funs, infos, p, &mut dims)? {
            return Ok(false);
        }
    }
    Ok(true)
}

/// The number of string cells of a nonterminal, by halving the list of categories; None where it is
/// not one of a listed category.
fn listed_dimension(infos: &[Info], n: u32) -> Option<u32>
    requires { are_infos 0 infos.now ≡ true }
    ensures { IfSome result (λ dim. (is_listed infos.now n ≡ true) × (dim ≡ dimension_of infos.now n)) }
{
    let after = infos.partition_point(|info| info.first <= n);
    if n < 2 || after == 0 {
        return None;
    }
    match infos.get(after - 1) {
        None => None,
        Some(info) => within(info, n),
    }
}

/// The number of string cells of a category where it has the nonterminal.
fn within(info: &Info, n: u32) -> Option<u32>
    ensures { IfSome result (λ dim. (info.now.first ≤ n) × (n < info.now.first + info.now.count) × (dim ≡ info.now.dim)) }
{
    if n < info.first || info.count <= n - info.first {
        return None;
    }
    Some(info.dim)
}

fn is_def(infos: &[Info], d: &Def) -> bool
    requires { are_infos 0 infos.now ≡ true }
    ensures { result ≡ true → is_def infos.now d.now ≡ true }
{
    match listed_dimension(infos, d.result) {
        None => false,
        Some(dim) => are_sequences(&[1], dim, d.seqs.as_slice()),
    }
}

fn defs_fit(infos: &[Info], defs: &[Def]) -> bool
    requires { are_infos 0 infos.now ≡ true }
    ensures { result ≡ true → list_all (is_def infos.now) defs.now ≡ true }
{
    'each: for d in defs {
        if !is_def(infos, d) {
            return false;
        }
    }
    true
}

fn is_ref(infos: &[Info], r: &Ref) -> bool
    requires { are_infos 0 infos.now ≡ true }
    ensures { result ≡ true → is_ref infos.now r.now ≡ true }
{
    match listed_dimension(infos, r.arg) {
        None => false,
        Some(dim) => is_sequence(&[dim], r.seq.get().as_slice()),
    }
}

fn refs_fit(infos: &[Info], refs: &[Ref]) -> bool
    requires { are_infos 0 infos.now ≡ true }
    ensures { result ≡ true → list_all (is_ref infos.now) refs.now ≡ true }
{
    'each: for r in refs {
        if !is_ref(infos, r) {
            return false;
        }
    }
    true
}

/// Whether the concrete syntax is one of the abstract syntax.
fn is_concrete(alloc: Global, a: &Abstract, c: &Concrete) -> Result<bool, NoMemory>
    ensures { IfOk result (λ yes. yes ≡ true → is_concrete a.now c.now ≡ true) }
{
    let infos = c.infos.as_slice();
    if infos.len() != a.cats.len() {
        return Ok(false);
    }
    if !are_infos(infos) {
        return Ok(false);
    }
    if !begins_with_literals(infos) {
        return Ok(false);
    }
    if !productions_fit(alloc, a.funs.as_slice(), infos, c.prods.as_slice())? {
        return Ok(false);
    }
    if !defs_fit(infos, c.defs.as_slice()) {
        return Ok(false);
    }
    Ok(refs_fit(infos, c.refs.as_slice()))
}

/// Whether all numbers are in range and the dimensions agree. One walk; only the names in types are
/// looked for one by one.
pub fn is_in_range(alloc: Global, a: &Abstract, concretes: &[Concrete]) -> Result<bool, NoMemory>
    ensures { IfOk result (λ yes. yes ≡ true → is_in_range a.now concretes.now ≡ true) }
{
    if !is_abstract(a) {
        return Ok(false);
    }
    'each: for c in concretes {
        if !is_concrete(alloc, a, c)? {
            return Ok(false);
        }
    }
    Ok(true)
}
