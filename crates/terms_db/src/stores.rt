//! A store of terms.

ghost use Rattle.std.specs.Prelude.{◌≡◌, ◌<◌, ◌≤◌, ◌↔◌, ◌++◌, ◌∷◌, [], IfOk, IsOk, IsTrue, OnErr, OnOk, Some, if◌then◌else◌, length, slice_get, take, vec_capacity, vec_len};
ghost use Rattle.hol_terms.specs.Terms.{SimpleType, Term, abstraction, application, plain_term, plain_type};
ghost use Rattle.terms_db.specs.Loose.{loose_bound};
ghost use Rattle.terms_db.specs.Nodes.{node_abstraction, node_application, plain_node};
ghost use Rattle.terms_db.specs.Stores.{Grows, IsLive, IsStore, PointsBelow, place_of, put_like, put_term, term_at, term_of_node, terms_of, with_node};

use crate::ids::TermId;
use crate::nodes::Node;
use hol_terms::indices::raised_index;
use hol_terms::terms::Tm;
use hol_terms::types::Ty;
use indexmap::IndexSet;
use std::alloc::{AllocError, Global};
use std::marker::Model;

/// A store of terms, which contracts see as the list of its nodes: none stands twice, and each one's parts stand before it.
#[derive(Drop)]
pub struct Db {
    alloc: Global,
    nodes: IndexSet<Node>,
    loose: Vec<u64>,
}

impl Model for Db {
    ghost use Rattle.std.specs.Prelude.{◌≡◌, List, map};
    ghost use Rattle.std.specs.Coded.{coded_list};
    ghost use Rattle.terms_db.specs.Codes.{node_code};
    ghost use Rattle.terms_db.specs.Loose.{loose_bounds};
    ghost use Rattle.terms_db.specs.Nodes.{TermNode, plain_node};
    ghost use Rattle.terms_db.specs.Stores.{IsStore};

    ghost Value = { List TermNode };

    ghost coded = { coded_list node_code };

    ghost view = { λ db. map plain_node db.nodes.keys };

    ghost invariant = { λ db. IsStore (map plain_node db.nodes.keys) × (db.loose.items ≡ loose_bounds (map plain_node db.nodes.keys)) };
}

impl Db {
    /// A store without a node.
    pub fn new(alloc: Global) -> Db
        ensures { result ≡ [] }
    {
        Db {
            alloc,
            nodes: IndexSet::new(alloc),
            loose: Vec::new(alloc),
        }
    }

    /// The node's number; a node that isn't there yet goes last. An `Err` is running out of memory, and the store is then as it was.
    pub fn put(&mut self, node: Node) -> Result<TermId, AllocError>
        requires { PointsBelow (length self.old) (plain_node node) }
        ensures nodes { OnOk result (self.new ≡ with_node self.old (plain_node node)) }
        ensures place { IfOk result (λ id. id.place ≡ place_of self.old (plain_node node)) }
        ensures unchanged { OnErr result (self.new ≡ self.old) }
        ensures kept { Grows self.old self.new }
        ensures live { IfOk result (λ id. IsLive self.new id.place) }
        ensures term { IfOk result (λ id. term_at self.new id.place ≡ term_of_node (terms_of self.old) (plain_node node)) }
    {
        let bound = self.bound_of(&node)?;
        self.loose.reserve(1)?;
        let (place, is_new) = self.nodes.insert_full(node)?;
        add_bound(&mut self.loose, is_new, bound)?;
        Ok(TermId::at(place as u64))
    }

    /// The least number that all loose indices of the node's term are below.
    fn bound_of(&self, node: &Node) -> Result<u64, AllocError>
        requires { PointsBelow (length self.now) (plain_node node.now) }
        ensures { IfOk result (λ bound. bound ≡ loose_bound (term_of_node (terms_of self.now) (plain_node node.now))) }
    {
        match node {
            Node::Free(_, _) | Node::Con(_) => Ok(0),
            Node::Bound(index) => raised_index(*index, 1),
            Node::App(function, argument) => {
                let left = self.loose_bound(*function);
                let right = self.loose_bound(*argument);
                Ok(left.max(right))
            }
            Node::Lam(_, body) => Ok(self.loose_bound(*body).saturating_sub(1)),
        }
    }

    /// The node of a number, of which its term is made.
    #[tactic(auto, using(crate::proofs::StoreLaws::plain_at))]
    pub fn node(&self, id: TermId) -> &Node
        requires { IsLive self.now id.place }
        ensures node { slice_get self.now id.place ≡ Some (plain_node result.now) }
        ensures parts { PointsBelow id.place (plain_node result.now) }
        ensures term { term_at self.now id.place ≡ term_of_node (terms_of self.now) (plain_node result.now) }
        ensures store { IsStore self.now }
    {
        &self.nodes.as_slice()[id.place() as usize]
    }

    /// The least number that all loose indices of the term are below.
    pub fn loose_bound(&self, id: TermId) -> u64
        requires { IsLive self.now id.place }
        ensures { result ≡ loose_bound (term_at self.now id.place) }
    {
        self.loose[id.place() as usize]
    }

    /// The number of the abstraction over a variable of the type of the abstraction `like`, with another body. It is `like` itself
    /// where that is no abstraction.
    pub fn abstraction_like(&mut self, like: TermId, body: TermId) -> Result<TermId, AllocError>
        requires like { IsLive self.old like.place }
        requires body { IsLive self.old body.place }
        ensures placed { IfOk result (λ id. (self.new, id.place) ≡ put_like self.old like.place (term_at self.old like.place) body.place) }
        ensures unchanged { OnErr result (self.new ≡ self.old) }
        ensures kept { Grows self.old self.new }
        ensures live { IfOk result (λ id. IsLive self.new id.place) }
        ensures term { IfOk result (λ id. (s : SimpleType) (b : Term) → term_at self.old like.place ≡ abstraction s b → term_at self.new id.place ≡ abstraction s (term_at self.old body.place)) }
    {
        match self.node(like) {
            Node::Lam(ty, _) => {
                let ty = ty.copy(self.alloc)?;
                self.put(Node::Lam(ty, body))
            }
            _ => Ok(like),
        }
    }

    /// How many nodes there are.
    pub fn mark(&self) -> u64
        ensures length { result ≡ length self.now }
        ensures store { IsStore self.now }
    {
        self.nodes.len() as u64
    }

    /// Exactly the first nodes remain.
    pub fn back_to(&mut self, mark: u64)
        requires { mark ≤ length self.old }
        ensures { self.new ≡ take mark self.old }
    {
        self.nodes.truncate(mark as usize);
        self.loose.truncate(mark as usize);
    }

    /// The number of an application.
    pub fn application(&mut self, function: TermId, argument: TermId) -> Result<TermId, AllocError>
        requires function { IsLive self.old function.place }
        requires argument { IsLive self.old argument.place }
        ensures nodes { OnOk result (self.new ≡ with_node self.old (node_application function.place argument.place)) }
        ensures place { IfOk result (λ id. id.place ≡ place_of self.old (node_application function.place argument.place)) }
        ensures unchanged { OnErr result (self.new ≡ self.old) }
        ensures kept { Grows self.old self.new }
        ensures live { IfOk result (λ id. IsLive self.new id.place) }
        ensures term { IfOk result (λ id. term_at self.new id.place ≡ application (term_at self.old function.place) (term_at self.old argument.place)) }
    {
        self.put(Node::App(function, argument))
    }

    /// The number of the abstraction with this body, over a variable of an equal type.
    pub fn abstraction(&mut self, ty: &Ty, body: TermId) -> Result<TermId, AllocError>
        requires { IsLive self.old body.place }
        ensures nodes { OnOk result (self.new ≡ with_node self.old (node_abstraction (plain_type ty.now) body.place)) }
        ensures place { IfOk result (λ id. id.place ≡ place_of self.old (node_abstraction (plain_type ty.now) body.place)) }
        ensures unchanged { OnErr result (self.new ≡ self.old) }
        ensures kept { Grows self.old self.new }
        ensures live { IfOk result (λ id. IsLive self.new id.place) }
        ensures term { IfOk result (λ id. term_at self.new id.place ≡ abstraction (plain_type ty.now) (term_at self.old body.place)) }
    {
        let ty = ty.copy(self.alloc)?;
        self.put(Node::Lam(ty, body))
    }

    /// The number of a term, whose nodes are put in where they aren't there. An `Err` is running out of memory; the old nodes then stay, and
    /// some may stand after them.
    pub fn load(&mut self, t: &Tm) -> Result<TermId, AllocError>
        ensures kept { Grows self.old self.new }
        ensures nodes { IfOk result (λ id. (self.new, id.place) ≡ put_term self.old (plain_term t.now)) }
        ensures live { IfOk result (λ id. IsLive self.new id.place) }
        ensures term { IfOk result (λ id. term_at self.new id.place ≡ plain_term t.now) }
    {
        match t {
            Tm::Free(name, ty) => {
                let name = name.copy(self.alloc)?;
                let ty = ty.copy(self.alloc)?;
                self.put(Node::Free(name, ty))
            }
            Tm::Bound(index) => self.put(Node::Bound(*index)),
            Tm::Con(con) => {
                let con = con.copy(self.alloc)?;
                self.put(Node::Con(con))
            }
            Tm::App(function, argument) => {
                let function = self.load(function)?;
                let argument = self.load(argument)?;
                self.application(function, argument)
            }
            Tm::Lam(ty, body) => {
                let body = self.load(body)?;
                self.abstraction(ty, body)
            }
        }
    }

    /// The term of a number.
    pub fn unload(&self, alloc: Global, id: TermId) -> Result<Tm, AllocError>
        requires { IsLive self.now id.place }
        ensures { IfOk result (λ t. plain_term t ≡ term_at self.now id.place) }
    {
        match self.node(id) {
            Node::Free(name, ty) => Tm::variable(alloc, name, ty),
            Node::Bound(index) => Ok(Tm::Bound(*index)),
            Node::Con(con) => Tm::constant(alloc, con),
            Node::App(function, argument) => {
                let function = self.unload(alloc, *function)?;
                let argument = self.unload(alloc, *argument)?;
                Tm::app(alloc, function, argument)
            }
            Node::Lam(ty, body) => {
                let body = self.unload(alloc, *body)?;
                Tm::lam_over(alloc, ty, body)
            }
        }
    }
}

/// The bound of a new node goes last. There is room for it.
fn add_bound(loose: &mut Vec<u64>, is_new: bool, bound: u64) -> Result<(), AllocError>
    requires { vec_len loose.old < vec_capacity loose.old }
    ensures items { loose.new.items ≡ (if is_new then loose.old.items ++ bound ∷ [] else loose.old.items) }
    ensures room { IsOk result }
{
    if is_new {
        loose.push(bound)?;
    }
    Ok(())
}

/// Whether the term of a number is this one, which isn't put in. It takes no memory.
#[cycle(is_term)]
pub fn is_term(db: &Db, id: TermId, t: &Tm) -> bool
    requires { IsLive db.now id.place }
    ensures { IsTrue result ↔ (term_at db.now id.place ≡ plain_term t.now) }
{
    is_of_node(db, db.node(id), t)
}

/// Whether the term of a node is this one.
#[cycle(is_term)]
fn is_of_node(db: &Db, node: &Node, t: &Tm) -> bool
    requires { PointsBelow (length db.now) (plain_node node.now) }
    ensures { IsTrue result ↔ (term_of_node (terms_of db.now) (plain_node node.now) ≡ plain_term t.now) }
{
    match (node, t) {
        (Node::Free(name, ty), Tm::Free(other, other_ty)) => name.same(other) && ty.same(other_ty),
        (Node::Bound(i), Tm::Bound(j)) => *i == *j,
        (Node::Con(c), Tm::Con(d)) => c.same(d),
        (Node::App(f, a), Tm::App(g, b)) => is_term(db, *f, g) && is_term(db, *a, b),
        (Node::Lam(ty, b), Tm::Lam(other_ty, c)) => ty.same(other_ty) && is_term(db, *b, c),
        _ => false,
    }
}

/// Whether two numbers of one store have equal terms.
#[tactic(auto, using(crate::proofs::StoreLaws::same_place))]
pub fn same_term(db: &Db, i: TermId, j: TermId) -> bool
    requires first { IsLive db.now i.place }
    requires second { IsLive db.now j.place }
    ensures { IsTrue result ↔ (term_at db.now i.place ≡ term_at db.now j.place) }
{
    let _ = db.mark();
    i == j
}
