//! Copying, printing or shaping each part of a tree by itself.

use crate::answer::{Answer, is_copied};
use isle_syntax::ast::{
    Attr, Def, Expr, Fields, Model, ModelType, ModelValue, Pattern, Rule, Spec, SpecExpr, TypeDef,
    TypeValue, Variant,
};
use isle_syntax::lexer::Pos;
use isle_syntax::printer::{ToSExpr, print_node};
use std::alloc::Global;

/// The operation on each part.
#[derive(Clone, Copy, Drop)]
pub enum Way {
    /// It is copied, and compared with its copy.
    Copy,
    /// It is printed.
    Print,
    /// It is printed on one line, a pattern or an expression behind its position.
    Line,
    /// Its S-expression is made.
    Shape,
}

/// A walk over the parts of a tree, and its output.
#[derive(Drop)]
struct Parts {
    alloc: Global,
    way: Way,
    out: Answer,
}

impl Parts {
    /// Adds words for a node and a bar: its S-expression, its text, or whether its copy is equal.
    fn put<N: ToSExpr + Clone + PartialEq + Drop>(&mut self, node: &N) {
        match self.way {
            Way::Copy => self.put_copy(node),
            Way::Print => self.put_print(node, 20),
            Way::Line => self.put_print(node, usize::MAX),
            Way::Shape => self.put_shape(node),
        }
    }

    /// Adds a word and a bar that say whether the copy of a node is equal to it.
    fn put_copy<N: Clone + PartialEq + Drop>(&mut self, node: &N) {
        let is_equal = is_copied(node, &mut self.out);
        self.out
            .put(if is_equal { "equal | " } else { "another | " });
    }

    fn put_print<N: ToSExpr>(&mut self, node: &N, width: usize) {
        match print_node(self.alloc, node, width) {
            Ok(text) => self.out.put(&text),
            Err(fault) => self.out.show_print_fault(&fault),
        }
        self.out.put(" | ");
    }

    fn put_shape<N: ToSExpr>(&mut self, node: &N) {
        match node.to_sexpr(self.alloc) {
            Ok(sexpr) => self.out.show(&sexpr),
            Err(fault) => self.out.show_print_fault(&fault),
        }
        self.out.put(" | ");
    }

    /// Adds words for each node.
    fn put_all<N: ToSExpr + Clone + PartialEq + Drop>(&mut self, nodes: &[N]) {
        for node in nodes {
            self.put(node);
        }
    }

    /// Adds a position, in the way `Line`.
    fn put_pos(&mut self, pos: Pos) {
        if matches!(self.way, Way::Line) {
            self.out.show(&pos);
            self.out.put(" ");
        }
    }

    /// Adds words for the fields of a type or a variant; in the way `Copy` also for all of them.
    fn put_fields(&mut self, fields: &Fields) {
        if matches!(self.way, Way::Copy) {
            self.put_copy(fields);
        }
        match fields {
            Fields::Unit => {}
            Fields::Struct(fields) => self.put_all(&fields.fields),
            Fields::Tuple(fields) => self.put_all(&fields.fields),
        }
    }

    fn put_type(&mut self, def: &TypeDef) {
        self.put(def);
        self.put(&def.name);
        self.put(&def.ty);
        match &def.ty {
            TypeValue::Primitive(_, _) => {}
            TypeValue::Struct(fields, _) => self.put_fields(fields),
            TypeValue::Enum(variants, _) => {
                self.put_all(variants);
                for variant in variants {
                    self.put_fields(&variant.fields);
                }
            }
        }
    }

    fn put_model(&mut self, model: &Model) {
        self.put(model);
        self.put(&model.val);
        match &model.val {
            ModelValue::ConstValue(value) => self.put(value),
            ModelValue::TypeValue(ty) => {
                self.put(ty);
                if let ModelType::Struct(fields) = ty {
                    self.put_all(fields);
                    for field in fields {
                        self.put(&field.ty);
                    }
                }
            }
        }
    }

    /// Adds words for a pattern, in the way `Line` behind its symbol if it is a term.
    fn put_pattern(&mut self, pattern: &Pattern) {
        if let (Way::Line, Some(sym)) = (self.way, pattern.root_term()) {
            self.out.put("term ");
            self.out.put(&sym.0);
            self.out.put(" ");
        }
        self.put_pos(pattern.pos());
        self.put(pattern);
    }

    /// Adds words for a pattern, and for each of its parts.
    fn put_patterns(&mut self, pattern: &Pattern) {
        self.put_pattern(pattern);
        if let Pattern::Term { args: parts, .. } | Pattern::And { subpats: parts, .. } = pattern {
            for part in parts {
                self.put_pattern(part);
            }
        }
    }

    fn put_expr(&mut self, expr: &Expr) {
        self.put_pos(expr.pos());
        self.put(expr);
    }

    /// Adds words for an expression and its parts.
    fn put_exprs(&mut self, expr: &Expr) {
        self.put_expr(expr);
        match expr {
            Expr::Let { defs, .. } => self.put_all(defs),
            Expr::Term { args, .. } => {
                for arg in args {
                    self.put_expr(arg);
                }
            }
            _ => {}
        }
    }

    fn put_rule(&mut self, rule: &Rule) {
        self.put(rule);
        self.put_patterns(&rule.pattern);
        self.put_all(&rule.iflets);
        self.put_exprs(&rule.expr);
    }

    fn put_spec_expr(&mut self, expr: &SpecExpr) {
        self.put_pos(expr.pos());
        self.put(expr);
    }

    /// Adds words for a spec expression and its lists.
    fn put_spec_exprs(&mut self, expr: &SpecExpr) {
        self.put_spec_expr(expr);
        match expr {
            SpecExpr::Op { op, args, .. } => {
                self.put(op);
                for arg in args {
                    self.put_spec_expr(arg);
                }
            }
            SpecExpr::Match { arms, .. } => self.put_all(arms),
            SpecExpr::Struct { fields, .. } => self.put_all(fields),
            _ => {}
        }
    }

    fn put_spec(&mut self, spec: &Spec) {
        self.put(spec);
        for expr in &spec.provides {
            self.put_spec_exprs(expr);
        }
        self.put_all(&spec.modifies);
    }

    fn put_attr(&mut self, attr: &Attr) {
        self.put(attr);
        if matches!(self.way, Way::Copy) {
            self.put_copy(&attr.target);
        }
        self.put_all(&attr.kinds);
    }

    fn put_definition(&mut self, def: &Def) {
        match def {
            Def::Pragma(_) => {}
            Def::TypeDef(def) => self.put_type(def),
            Def::Rule(rule) => self.put_rule(rule),
            Def::Extractor(extractor) => {
                self.put(extractor);
                self.put_patterns(&extractor.template);
            }
            Def::Decl(decl) => self.put(decl),
            Def::Attr(attr) => self.put_attr(attr),
            Def::Spec(spec) => self.put_spec(spec),
            Def::SpecMacro(spec_macro) => self.put(spec_macro),
            Def::Model(model) => self.put_model(model),
            Def::State(state) => self.put(state),
            Def::Form(form) => {
                self.put(form);
                self.put_all(&form.signatures);
            }
            Def::Instantiation(instantiation) => self.put(instantiation),
            Def::Extern(outside) => self.put(outside),
            Def::Converter(converter) => self.put(converter),
        }
    }
}

/// Adds words for each definition and each of its parts, with bars between them.
pub fn put_parts(alloc: Global, way: Way, defs: &[Def], out: &mut Answer) {
    let mut parts = Parts {
        alloc,
        way,
        out: Answer::new(alloc),
    };
    parts.put_all(defs);
    for def in defs {
        parts.put_definition(def);
    }
    out.put(parts.out.text.trim_end_matches(" | "));
    out.is_whole &= parts.out.is_whole;
}
