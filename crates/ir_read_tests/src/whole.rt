// Whole texts, and what they spell.
use crate::text::SUM;
use ir_read::{ReadError, read};
use ir_tree::{BinOp, Block, Function, Init, Instr, MemTy, Module, Operand, Prof, Ret, Term, Ty};
use std::test::Fail;

fn first_function(module: &Module) -> Option<&Function> {
    module.functions.as_slice().first()
}

fn block_of(function: &Function, number: usize) -> Option<&Block> {
    function.blocks.as_slice().get(number)
}

#[test]
fn all_but_the_function_is_read_past(rt: HostRuntime) -> Result<(), Fail> {
    let module = read(rt.alloc(), SUM)?;
    assert_eq!(rt; module.globals.as_slice().len(), 0);
    assert_eq!(rt; module.functions.as_slice().len(), 1);
    match first_function(&module) {
        Some(function) => {
            assert!(rt; function.name.bytes() == b"sum".as_slice());
            assert!(rt; function.ret == Ret::Value(Ty::I32));
            assert!(rt; function.prof.is_none());
            match function.params.as_slice() {
                [only] => assert!(rt; only.1.bytes() == b"0".as_slice()),
                _ => assert!(rt; false, "not one parameter"),
            }
            match function.blocks.as_slice() {
                [first, second, third] => {
                    assert!(rt; first.label.bytes() == b"1".as_slice());
                    assert!(rt; second.label.bytes() == b"3".as_slice());
                    assert!(rt; third.label.bytes() == b"5".as_slice());
                }
                _ => assert!(rt; false, "not three blocks"),
            }
        }
        None => assert!(rt; false, "no function"),
    }
    Ok(())
}

#[test]
fn flags_and_literals_are_kept(rt: HostRuntime) -> Result<(), Fail> {
    let module = read(rt.alloc(), SUM)?;
    let block = first_function(&module).and_then(|f| block_of(f, 1));
    match block.and_then(|b| b.instrs.as_slice().first()) {
        Some(
            Instr::Binary {
                op,
                flags,
                ty,
                right,
                ..
            },
        ) => {
            assert!(rt; *op == BinOp::Add);
            assert!(rt; !flags.nuw && flags.nsw && !flags.exact);
            assert!(rt; *ty == Ty::I32);
            assert!(rt; *right == Operand::Int(4294967295));
        }
        _ => assert!(rt; false, "no addition"),
    }
    Ok(())
}

#[test]
fn a_text_of_blanks_has_at_most_16777216_bytes(rt: HostRuntime) -> Result<(), Fail> {
    let mut text = vec![in rt.alloc(); b' '; 16777216]?;
    let module = read(rt.alloc(), text.as_slice())?;
    assert_eq!(rt; module.functions.as_slice().len(), 0);
    text.push(b' ')?;
    assert!(rt;
        matches!(
            read(rt.alloc(), text.as_slice()),
            Err(ReadError::TextLimit { length: 16777217 })
        )
    );
    Ok(())
}

const EVERYTHING: &[u8] =
    b"@a = internal unnamed_addr constant [2 x [3 x i8]] [[3 x i8] c\"ab\\0A\", [3 x i8] zeroinitializer], section \"s\", comdat, align 1, !dbg !7
@p = global ptr @f
@n = external dso_local global [2 x i64], align 8
@l = global [2 x i16] [i16 -1, i16 65535]
@t = global i1 true
$f = comdat any
declare noundef i64 @g(i64 noundef, ptr nocapture) nounwind memory(none) \"a\"=\"b\" #1
define fastcc void @f(i32 %x, ptr, i1 %7, ptr) #0 !prof !1 {
  %b = shl nuw nsw i32 %x, 3
  %e = sdiv exact i32 %b, %x
  %o = or disjoint i32 %e, 1
  %c = icmp samesign ult i32 %o, -1
  %v = zext nneg i32 %o to i64
  %u = trunc nuw nsw i64 %v to i8
  %q = ptrtoint ptr @a to i64
  %z = freeze i1 %c
  %s = select i1 %z, i64 %v, i64 %q, !prof !2
  %m = alloca [4 x i64], align 16
  %w = load i64, ptr %m, align 8, !tbaa !7
  store i64 %w, ptr %m, align 8
  %y = getelementptr nuw inbounds [4 x i64], ptr %m, i64 0, i64 %w, !dbg !7
  %r = tail call i64 @g(i64 noundef %s, ptr %y) nounwind, !prof !3, !prof !4
  call void %0(), !prof !2
  atomicrmw add ptr getelementptr inbounds ([2 x i64], ptr @n, i64 0, i64 1), i64 %r monotonic, align 8
  switch i8 %u, label %d [
    i8 -1, label %h
    i8 7, label %d
  ], !prof !5
d:
  br i1 %7, label %h, label %k, !prof !6, !prof !2
h:
  unreachable, !dbg !7
k:
  ret void
}
!1 = !{!\"function_entry_count\", i64 10}
!2 = !{!\"branch_weights\", i32 1, i32 -1}
!3 = !{!\"VP\", i32 1, i64 3, i64 4, i64 5}
!4 = !{!\"VP\", i32 0, i64 9, i64 -1, i64 5, i64 2, i64 4}
!5 = distinct !{!\"branch_weights\", i32 1, i32 2, i32 3}
!6 = !{!\"branch_weights\", i32 1, i32 2}
!6 = !{!\"branch_weights\", i32 1, i32 2}
!7 = !{}
";

fn instruction(module: &Module, number: usize) -> Option<&Instr> {
    let function = module.functions.as_slice().get(1)?;
    block_of(function, 0)?.instrs.as_slice().get(number)
}

fn terminator(module: &Module, number: usize) -> Option<&Term> {
    let function = module.functions.as_slice().get(1)?;
    Some(&block_of(function, number)?.term)
}

#[test]
fn parameters_and_the_first_block_take_numbers(rt: HostRuntime) -> Result<(), Fail> {
    let module = read(rt.alloc(), EVERYTHING)?;
    match module.functions.as_slice() {
        [declared, defined] => {
            assert!(rt; declared.is_declared());
            match declared.params.as_slice() {
                [first, second] => {
                    assert!(rt; first.1.bytes().is_empty() && second.1.bytes().is_empty());
                    assert!(rt; first.0 == Ty::I64 && second.0 == Ty::Ptr);
                }
                _ => assert!(rt; false, "not two parameters"),
            }
            match defined.params.as_slice() {
                [_, second, third, fourth] => {
                    assert!(rt; second.1.bytes() == b"0".as_slice());
                    assert!(rt; third.1.bytes() == b"7".as_slice());
                    assert!(rt; fourth.1.bytes() == b"2".as_slice());
                }
                _ => assert!(rt; false, "not four parameters"),
            }
            match block_of(defined, 0) {
                Some(entry) => assert!(rt; entry.label.bytes() == b"3".as_slice()),
                None => assert!(rt; false, "no block"),
            }
        }
        _ => assert!(rt; false, "not two functions"),
    }
    Ok(())
}

#[test]
fn notes_are_kept_by_their_shape_and_place(rt: HostRuntime) -> Result<(), Fail> {
    let module = read(rt.alloc(), EVERYTHING)?;
    match module.functions.as_slice().get(1) {
        Some(
            Function {
                prof: Some(note),
                ..
            },
        ) => assert!(rt; *note.get() == Prof::Entry(10)),
        _ => assert!(rt; false, "no entry count"),
    }
    match instruction(&module, 8) {
        Some(
            Instr::Select {
                prof: Some(note),
                ..
            },
        ) => match note.get() {
            Prof::Weights(weights) => assert!(rt;
                weights.as_slice() == [1u32, 4294967295].as_slice()
            ),
            _ => assert!(rt; false, "no weights"),
        },
        _ => assert!(rt; false, "no note of the select"),
    }
    match instruction(&module, 13) {
        Some(
            Instr::Call {
                prof: Some(note),
                ..
            },
        ) => match note.get() {
            Prof::Targets { total, list } => {
                assert_eq!(rt; *total, 9);
                assert!(rt;
                    list.as_slice() == [(18446744073709551615u64, 5u64), (2, 4)].as_slice()
                );
            }
            _ => assert!(rt; false, "no targets"),
        },
        _ => assert!(rt; false, "no note of the call"),
    }
    // weights stand at no call, a node that is distinct has no shape, and of the others one is defined twice
    assert!(rt;
        matches!(
            instruction(&module, 14),
            Some(Instr::Call {
                prof: None,
                dest: None,
                ..
            })
        )
    );
    assert!(rt;
        matches!(
            terminator(&module, 0),
            Some(Term::Switch { prof: None, .. })
        )
    );
    match terminator(&module, 1) {
        Some(
            Term::CondBr {
                prof: Some(note),
                ..
            },
        ) => match note.get() {
            Prof::Weights(weights) => assert!(rt;
                weights.as_slice() == [1u32, 4294967295].as_slice()
            ),
            _ => assert!(rt; false, "no weights"),
        },
        _ => assert!(rt; false, "no note of the branch"),
    }
    Ok(())
}

#[test]
fn flags_that_are_kept_are_told_from_those_read_past(rt: HostRuntime) -> Result<(), Fail> {
    let module = read(rt.alloc(), EVERYTHING)?;
    match instruction(&module, 0) {
        Some(Instr::Binary { flags, .. }) => { assert!(rt; flags.nuw && flags.nsw && !flags.exact) }
        _ => assert!(rt; false, "no shift"),
    }
    match instruction(&module, 1) {
        Some(Instr::Binary { flags, .. }) => {
            assert!(rt; !flags.nuw && !flags.nsw && flags.exact)
        }
        _ => assert!(rt; false, "no division"),
    }
    match instruction(&module, 5) {
        Some(Instr::Convert { flags, .. }) => {
            assert!(rt; flags.nuw && flags.nsw && !flags.exact)
        }
        _ => assert!(rt; false, "no trunc"),
    }
    assert!(rt;
        matches!(
            instruction(&module, 12),
            Some(Instr::Gep { inbounds: true, .. })
        )
    );
    match instruction(&module, 15) {
        Some(
            Instr::Count {
                symbol,
                size,
                index,
                ..
            },
        ) => {
            assert!(rt; symbol.bytes() == b"n".as_slice());
            assert_eq!(rt; *size, 2);
            assert_eq!(rt; *index, 1);
        }
        _ => assert!(rt; false, "no counter"),
    }
    Ok(())
}

#[test]
fn variables_have_their_initialisers(rt: HostRuntime) -> Result<(), Fail> {
    let module = read(rt.alloc(), EVERYTHING)?;
    match module.globals.as_slice() {
        [text, pointer, external, list, truth] => {
            assert!(rt; text.constant && !pointer.constant);
            match &text.init {
                Init::List(parts) => match parts.as_slice() {
                    [Init::Bytes(bytes), Init::Zero] => assert!(rt;
                        bytes.as_slice() == b"ab\n".as_slice()
                    ),
                    _ => assert!(rt; false, "no bytes"),
                },
                _ => assert!(rt; false, "no list"),
            }
            match &text.mem {
                MemTy::Array { count: 2, element } => {
                    assert!(rt; matches!(element.get(), MemTy::Array { count: 3, .. }))
                }
                _ => assert!(rt; false, "no array of arrays"),
            }
            match &pointer.init {
                Init::Symbol(name) => assert!(rt; name.bytes() == b"f".as_slice()),
                _ => assert!(rt; false, "no symbol"),
            }
            assert!(rt; external.init == Init::External);
            match &list.init {
                Init::List(items) => assert!(rt;
                    items.as_slice() == [Init::Int(65535), Init::Int(65535)].as_slice()
                ),
                _ => assert!(rt; false, "no list of numbers"),
            }
            assert!(rt; truth.init == Init::Int(1));
        }
        _ => assert!(rt; false, "not five variables"),
    }
    Ok(())
}

#[test]
fn a_block_without_a_label_is_block_0(rt: HostRuntime) -> Result<(), Fail> {
    let module = read(rt.alloc(), b"define void @f() { ret void }")?;
    match first_function(&module).and_then(|f| block_of(f, 0)) {
        Some(block) => assert!(rt; block.label.bytes() == b"0".as_slice()),
        None => assert!(rt; false, "no block"),
    }
    Ok(())
}

#[test]
fn the_place_of_syntax_is_the_token_at_which_reading_stopped(rt: HostRuntime) {
    let alloc = rt.alloc();
    assert!(rt;
        matches!(
            read(alloc, b"@g = global i8 256"),
            Err(ReadError::Syntax { at: 15 })
        )
    );
    assert!(rt;
        matches!(
            read(alloc, b"@g = global i8 -129"),
            Err(ReadError::Syntax { at: 15 })
        )
    );
    assert!(rt;
        matches!(
            read(alloc, b"!0 = !{i32 1"),
            Err(ReadError::Syntax { at: 12 })
        )
    );
    assert!(rt;
        matches!(
            read(alloc, b"target triple = \"x86"),
            Err(ReadError::Syntax { at: 16 })
        )
    );
    assert!(rt;
        matches!(
            read(alloc, b"define void @f() { %x = add nsw nuw i8 1, 2"),
            Err(ReadError::Syntax { at: 32 })
        )
    );
    assert!(rt;
        matches!(
            read(alloc, b"declare void @f(i8 %a)"),
            Err(ReadError::Syntax { at: 19 })
        )
    );
    assert!(rt;
        matches!(
            read(alloc, b"define void @f() { %x = phi i8 ret void }"),
            Err(ReadError::Syntax { at: 31 })
        )
    );
}
