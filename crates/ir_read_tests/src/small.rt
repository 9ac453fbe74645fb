// Small texts.
use ir_read::{ReadError, read};
use ir_tree::{Instr, Module, Operand, Ty};
use std::test::Fail;

const TEXT: &[u8] = b"declare void @print_i64(i64)
define i64 @g(i64 %n) {
entry:
  %c = icmp slt i64 %n, 10 ; signed
  br i1 %c, label %low, label %\"high\"
low:
  %a = add i64 %n, -1
  call void @print_i64(i64 %a)
  br label %high
high:
  ret i64 %n
}
";

#[test]
fn two_functions_are_read(rt: HostRuntime) -> Result<(), Fail> {
    let module = read(rt.alloc(), TEXT)?;
    assert_eq!(rt; module.globals.as_slice().len(), 0);
    assert_eq!(rt; module.functions.as_slice().len(), 2);
    Ok(())
}

#[test]
fn a_string_without_its_end_is_syntax(rt: HostRuntime) {
    assert!(rt;
        matches!(
            read(rt.alloc(), b"target triple = \"x86"),
            Err(ReadError::Syntax { at: 16 })
        )
    );
}

#[test]
fn a_broken_text_behind_a_module_is_syntax(rt: HostRuntime) {
    assert!(rt;
        matches!(
            read(rt.alloc(), b"define void @f() { a: ret void } ^"),
            Err(ReadError::Syntax { at: 33 })
        )
    );
}

const PHIS: &[u8] = b"define i64 @f(i64 %n) {
entry:
  br label %head
head:
  %i = phi i64 [ 0, %entry ], [ %j, %\"body\" ]
  %c = icmp slt i64 %i, %n
  br i1 %c, label %body, label %done
body:
  %k = phi i64 [ %i, %head ]
  %j = add i64 %k, 1
  br label %head
done:
  %r = phi i64 [ %i, %head ]
  ret i64 %r
}
";

// The first instruction of the second block of the first function.
fn first_phi(module: &Module) -> Option<&Instr> {
    let f = module.functions.as_slice().first()?;
    let head = f.blocks.as_slice().get(1)?;
    head.instrs.as_slice().first()
}

fn is_local(operand: &Operand, bytes: &[u8]) -> bool {
    match operand {
        Operand::Local(name) => name.bytes() == bytes,
        _ => false,
    }
}

#[test]
fn the_entries_of_a_phi_are_read_in_order(rt: HostRuntime) -> Result<(), Fail> {
    let module = read(rt.alloc(), PHIS)?;
    match first_phi(&module) {
        Some(Instr::Phi { dest, ty, entries }) => {
            assert!(rt; dest.bytes() == b"i".as_slice());
            assert!(rt; *ty == Ty::I64);
            match entries.as_slice() {
                [first, second] => {
                    assert!(rt; first.0 == Operand::Int(0));
                    assert!(rt; first.1.bytes() == b"entry".as_slice());
                    assert!(rt; is_local(&second.0, b"j".as_slice()));
                    assert!(rt; second.1.bytes() == b"body".as_slice());
                }
                _ => assert!(rt; false, "not two entries"),
            }
        }
        _ => assert!(rt; false, "no phi"),
    }
    Ok(())
}

#[test]
fn a_phi_without_entries_is_syntax(rt: HostRuntime) {
    assert!(rt;
        matches!(
            read(rt.alloc(), b"define void @f() { a: %x = phi i64 ret void }"),
            Err(ReadError::Syntax { at: 35 })
        )
    );
}
