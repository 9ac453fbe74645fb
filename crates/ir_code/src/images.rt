// What global variables hold at first.
ghost use Rattle.std.specs.Prelude.{◌≡◌, ◌++◌, map, OnOk, IfOk};
ghost use Rattle.ir_model.specs.Initial.{init_cells, value_cells, zeros};
ghost use Rattle.ir_model.specs.Sizes as sizes;
ghost use Rattle.ir_model.specs.Values as values;
ghost use Rattle.ir_tree.specs.Functions.{begins_with};
ghost use Rattle.ir_code.specs.Found.{value_in};
ghost use Rattle.ir_code.specs.Images as spec;

use crate::sizes::{element_of, size_of};
use crate::symbols::Symbols;
use crate::values::{at_type, bytes_of};
use ir_memory::{Base, Image, Value};
use ir_tree::{Global1, Init, MemTy};
use pgo_base::NoMemory;
use std::alloc::Global;

/// A global variable: whether it is constant, and the cells that it begins with.
#[derive(Drop)]
pub struct GlobalImage {
    pub constant: bool,
    pub cells: Image,
}

/// Puts zero bytes of a type behind the cells.
fn push_zeros(mem: &MemTy, cells: &mut Image) -> Result<(), NoMemory>
    ensures { OnOk result (cells.new ≡ cells.old ++ zeros (sizes.size_of mem.now)) }
{
    let size = size_of(mem)?;
    match cells.push_zeros(size as usize) {
        Ok(()) => Ok(()),
        Err(_) => Err(NoMemory),
    }
}

/// Puts a value at a type behind the cells; at an array, which no accepted module has, zeros.
fn push_value(mem: &MemTy, value: Value, cells: &mut Image) -> Result<(), NoMemory>
    ensures { OnOk result (cells.new ≡ cells.old ++ value_cells mem.now (sizes.scalar_of mem.now) value) }
{
    match mem {
        MemTy::Scalar(ty) => match cells.push(bytes_of(*ty), at_type(*ty, value)) {
            Ok(()) => Ok(()),
            Err(_) => Err(NoMemory),
        },
        MemTy::Array { .. } => push_zeros(mem, cells),
    }
}

/// Puts what an initialiser leaves in memory behind the cells.
#[tactic(auto, using(crate::proofs::Trees::cells_list))]
fn push_init(symbols: &Symbols, mem: &MemTy, init: &Init, cells: &mut Image) -> Result<(), NoMemory>
    ensures { OnOk result (cells.new ≡ cells.old ++ init_cells (value_in symbols.now) mem.now init.now) }
{
    match init {
        Init::Int(number) => push_value(mem, Value::Int(*number), cells),
        Init::Null => {
            let null = Value::Pointer {
                base: Base::Null,
                offset: 0,
            };
            push_value(mem, null, cells)
        }
        Init::Symbol(name) => push_value(mem, symbols.value(name)?, cells),
        Init::Zero => push_zeros(mem, cells),
        Init::Bytes(bytes) => match cells.push_bytes(bytes.as_slice()) {
            Ok(()) => Ok(()),
            Err(_) => Err(NoMemory),
        },
        Init::List(inits) => {
            let element = element_of(mem);
            for one in inits.as_slice() {
                push_init(symbols, element, one, cells)?;
            }
            Ok(())
        }
        Init::External => Ok(()),
    }
}

/// Whether a global variable is one of a profile, by its name.
pub fn is_profile_global(name: &[u8]) -> bool
    ensures { result ≡ values.is_profile_global name.now }
{
    begins_with(b"__profn_".as_slice(), name)
        || begins_with(b"__profc_".as_slice(), name)
        || begins_with(b"__profd_".as_slice(), name)
}

/// Whether a name begins with another.
pub fn begins_with(front: &[u8], name: &[u8]) -> bool
    ensures { result ≡ begins_with front.now name.now }
{
    let most = front.len().min(name.len());
    front == &name[..most]
}

/// The image of a global variable.
fn image(alloc: Global, symbols: &Symbols, global: &Global1) -> Result<GlobalImage, NoMemory>
    ensures { IfOk result (λ i. i ≡ spec.image_of (value_in symbols.now) global.now) }
{
    let mut cells = Image::new(alloc);
    push_init(symbols, &global.mem, &global.init, &mut cells)?;
    Ok(GlobalImage {
        constant: global.constant,
        cells,
    })
}

/// The images of the global variables that are objects, in order.
pub fn global_images(
    alloc: Global,
    symbols: &Symbols,
    globals: &[Global1],
) -> Result<Vec<GlobalImage>, NoMemory>
    ensures { IfOk result (λ images. images.items ≡ map (spec.image_of (value_in symbols.now)) (values.objects globals.now)) }
{
    let mut images = Vec::new(alloc);
    for global in globals {
        if !is_profile_global(global.name.bytes()) {
            images.push(image(alloc, symbols, global)?)?;
        }
    }
    Ok(images)
}
