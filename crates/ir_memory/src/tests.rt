//! Cases worked out by hand.
use crate::{Base, CELL_LIMIT, Image, MemError, Memory, Value, address};
use std::test::Fail;

const NULL: Value = Value::Pointer {
    base: Base::Null,
    offset: 0,
};

const FUNCTION: Value = Value::Pointer {
    base: Base::Function(2),
    offset: 5,
};

#[test]
fn hand_computed_addresses(rt: HostRuntime) -> Result<(), Fail> {
    assert_eq!(rt; address(Base::Null, 7), 7);
    assert_eq!(rt; address(Base::Function(0), 0), 16);
    assert_eq!(rt; address(Base::Function(2), 5), 53);
    assert_eq!(rt; address(Base::Object(0), 0), 4294967296);
    assert_eq!(rt; address(Base::Object(1), 3), 8589934595);
    // modulo 2^64
    assert_eq!(rt; address(Base::Function(0), 18446744073709551615), 15);
    assert_eq!(rt; address(Base::Object(4294967295), 9), 9);
    Ok(())
}

#[test]
fn integers_lie_lowest_byte_first(rt: HostRuntime) -> Result<(), Fail> {
    let mut memory = Memory::new(rt.alloc());
    let object = Base::Object(memory.make(8, false)?);
    assert_eq!(rt; memory.load(object, 0, 8, false), Ok(Value::Int(0)));
    memory.store(object, 0, 4, Value::Int(0x1234_5678))?;
    assert_eq!(rt; memory.load(object, 0, 1, false), Ok(Value::Int(0x78)));
    assert_eq!(rt; memory.load(object, 1, 2, false), Ok(Value::Int(0x3456)));
    assert_eq!(rt;
        memory.load(object, 0, 8, false),
        Ok(Value::Int(0x1234_5678))
    );
    memory.store(object, 2, 1, Value::Int(0))?;
    assert_eq!(rt;
        memory.load(object, 0, 4, false),
        Ok(Value::Int(0x1200_5678))
    );
    Ok(())
}

#[test]
fn pointers_are_whole_or_none(rt: HostRuntime) -> Result<(), Fail> {
    let mut memory = Memory::new(rt.alloc());
    let object = Base::Object(memory.make(16, false)?);
    // unset memory is null
    assert_eq!(rt; memory.load(object, 3, 8, true), Ok(NULL));
    memory.store(object, 0, 8, FUNCTION)?;
    assert_eq!(rt; memory.load(object, 0, 8, true), Ok(FUNCTION));
    // the bytes of the address 53
    assert_eq!(rt; memory.load(object, 0, 8, false), Ok(Value::Int(53)));
    assert_eq!(rt; memory.load(object, 1, 8, true), Err(MemError::BadPointer));
    // pieces of two pointers
    memory.store(object, 8, 8, NULL)?;
    assert_eq!(rt; memory.load(object, 8, 8, true), Ok(NULL));
    assert_eq!(rt; memory.load(object, 4, 8, true), Err(MemError::BadPointer));
    // one byte written over
    memory.store(object, 7, 1, Value::Int(0))?;
    assert_eq!(rt; memory.load(object, 0, 8, true), Err(MemError::BadPointer));
    assert_eq!(rt; memory.load(object, 0, 8, false), Ok(Value::Int(53)));
    Ok(())
}

#[test]
fn accesses_are_refused(rt: HostRuntime) -> Result<(), Fail> {
    let mut memory = Memory::new(rt.alloc());
    let number = memory.make(4, true)?;
    let constant = Base::Object(number);
    memory.place(number, 2, 2, Value::Int(513))?;
    assert_eq!(rt; memory.load(constant, 2, 2, false), Ok(Value::Int(513)));
    assert_eq!(rt;
        memory.store(constant, 2, 2, Value::Int(0)),
        Err(MemError::Access)
    );
    assert_eq!(rt;
        memory.place(number, 3, 2, Value::Int(0)),
        Err(MemError::Access)
    );
    assert_eq!(rt;
        memory.place(number + 1, 0, 1, Value::Int(0)),
        Err(MemError::Access)
    );
    assert_eq!(rt; memory.load(constant, 1, 4, false), Err(MemError::Access));
    assert_eq!(rt;
        memory.load(constant, u64::MAX, 4, false),
        Err(MemError::Access)
    );
    assert_eq!(rt; memory.load(Base::Null, 0, 1, false), Err(MemError::Access));
    assert_eq!(rt;
        memory.load(Base::Function(0), 0, 8, true),
        Err(MemError::Access)
    );
    assert_eq!(rt;
        memory.load(constant, 0, 4, false),
        Ok(Value::Int(33619968))
    );
    Ok(())
}

#[test]
fn objects_end_and_their_numbers_stay_used(rt: HostRuntime) -> Result<(), Fail> {
    let mut memory = Memory::new(rt.alloc());
    let first = memory.make(1, false)?;
    let second = memory.make(1, false)?;
    let third = memory.make(1, false)?;
    assert_eq!(rt; [first, second, third], [0, 1, 2]);
    memory.drop_from(second);
    assert_eq!(rt;
        memory.load(Base::Object(first), 0, 1, false),
        Ok(Value::Int(0))
    );
    assert_eq!(rt;
        memory.load(Base::Object(second), 0, 1, false),
        Err(MemError::Access)
    );
    assert_eq!(rt;
        memory.load(Base::Object(third), 0, 1, false),
        Err(MemError::Access)
    );
    assert_eq!(rt; memory.make(1, false)?, 3);
    Ok(())
}

#[test]
fn live_cells_are_counted(rt: HostRuntime) -> Result<(), Fail> {
    let mut memory = Memory::new(rt.alloc());
    assert_eq!(rt; memory.make(CELL_LIMIT + 1, false), Err(MemError::Cells));
    assert_eq!(rt; memory.make(u64::MAX, false), Err(MemError::Cells));
    assert_eq!(rt; memory.make(CELL_LIMIT - 1, false)?, 0);
    assert_eq!(rt; memory.make(2, false), Err(MemError::Cells));
    // an object without cells counts as one
    assert_eq!(rt; memory.make(0, false)?, 1);
    assert_eq!(rt; memory.make(0, false), Err(MemError::Cells));
    memory.drop_from(1);
    assert_eq!(rt; memory.make(1, false)?, 2);
    Ok(())
}

#[test]
fn images_keep_their_pointers_behind_other_objects(rt: HostRuntime) -> Result<(), Fail> {
    let mut image = Image::new(rt.alloc());
    image.push(4, Value::Int(0x1234_5678))?;
    image.push(8, FUNCTION)?;
    image.push_zeros(3)?;
    image.push_bytes(b"abc")?;
    let mut memory = Memory::new(rt.alloc());
    let first = Base::Object(memory.make(5, false)?);
    memory.make_of(&image, true)?;
    let second = Base::Object(1);
    assert_eq!(rt;
        memory.load(second, 0, 4, false),
        Ok(Value::Int(0x1234_5678))
    );
    assert_eq!(rt; memory.load(second, 4, 8, true), Ok(FUNCTION));
    assert_eq!(rt; memory.load(second, 12, 3, false), Ok(Value::Int(0)));
    // the bytes 97, 98, 99
    assert_eq!(rt;
        memory.load(second, 15, 3, false),
        Ok(Value::Int(6_513_249))
    );
    assert_eq!(rt; memory.load(second, 15, 4, false), Err(MemError::Access));
    assert_eq!(rt; memory.load(first, 0, 5, false), Ok(Value::Int(0)));
    Ok(())
}

#[test]
fn ended_objects_leave_nothing_behind(rt: HostRuntime) -> Result<(), Fail> {
    let mut memory = Memory::new(rt.alloc());
    let first = memory.make(8, false)?;
    let second = memory.make(8, false)?;
    memory.store(Base::Object(second), 0, 8, FUNCTION)?;
    memory.drop_from(second);
    memory.drop_from(second);
    let third = memory.make(8, false)?;
    assert_eq!(rt; [first, second, third], [0, 1, 2]);
    assert_eq!(rt; memory.load(Base::Object(third), 0, 8, true), Ok(NULL));
    memory.store(Base::Object(third), 0, 8, FUNCTION)?;
    assert_eq!(rt; memory.load(Base::Object(third), 0, 8, true), Ok(FUNCTION));
    assert_eq!(rt; memory.load(Base::Object(first), 0, 8, true), Ok(NULL));
    Ok(())
}
