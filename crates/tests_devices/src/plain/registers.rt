//! What a device holds: for each page and each code with a register its bytes.

use pmb_command::{Form, Kind};
use pmb_table::{DeviceProfile, Entry};
use std::alloc::{AllocError, Global};

/// The bytes of one code on one page. A register that is not paged stands here for each page.
#[derive(Drop)]
struct Held {
    code: u8,
    page: u8,
    paged: bool,
    status: bool,
    bytes: Vec<u8>,
}

impl Held {
    /// Whether it is reached by what is written while a page is selected, ffh for all.
    fn is_reached(&self, page: u8) -> bool {
        !self.paged || page == 0xff || page == self.page
    }

    /// A complete write of data, also to another code.
    fn write(
        &mut self,
        alloc: Global,
        code: u8,
        zero: bool,
        data: &[u8],
    ) -> Result<(), AllocError> {
        if code == 0x03 {
            if self.status {
                for byte in self.bytes.as_mut_slice().iter_mut() {
                    *byte = 0;
                }
            }
        } else if self.code == code && !zero {
            if self.status {
                for (byte, mask) in self.bytes.as_mut_slice().iter_mut().zip(data) {
                    *byte &= 0xff ^ *mask;
                }
            } else {
                self.bytes = Vec::from_slice(alloc, data)?;
            }
        }
        Ok(())
    }
}

/// The selected page and the registers of a device.
#[derive(Drop)]
pub struct PlainRegisters<'p> {
    device: &'p DeviceProfile,
    /// The selected page, or ffh for all.
    pub page: u8,
    held: Vec<Held>,
}

/// The form of a register: of what is read, or else of what is written with data.
fn form_of(entry: &Entry) -> Option<Form> {
    match (entry.shape.read, entry.shape.write) {
        (Some(form), _) => Some(form),
        (None, Some(Form::Zero)) => None,
        (None, form) => form,
    }
}

fn zeros(alloc: Global, form: Form) -> Result<Vec<u8>, AllocError> {
    let count = match form {
        Form::Zero | Form::Block => 0,
        Form::One => 1,
        Form::Two => 2,
        Form::Four => 4,
        Form::Eight => 8,
    };
    let mut bytes = Vec::new(alloc);
    for _ in 0..count {
        bytes.push(0)?;
    }
    Ok(bytes)
}

fn first_bytes(
    alloc: Global,
    device: &DeviceProfile,
    page: u8,
    code: u8,
    form: Form,
) -> Result<Vec<u8>, AllocError> {
    if code == 0x20 {
        let mut bytes = Vec::new(alloc);
        bytes.push(device.modes().get(usize::from(page)).copied().unwrap_or(0))?;
        return Ok(bytes);
    }
    match device.initial(code, page) {
        Some(bytes) => Vec::from_slice(alloc, bytes),
        None => zeros(alloc, form),
    }
}

impl<'p> PlainRegisters<'p> {
    pub fn new(alloc: Global, device: &'p DeviceProfile) -> Result<Self, AllocError> {
        let mut held = Vec::new(alloc);
        for i in 0..device.len() {
            if let Some(entry) = device.entry_at(i)
                && let Some(form) = form_of(entry)
            {
                for page in 0..device.pages() {
                    let first = if entry.paged { page } else { 0 };
                    held.push(Held {
                        code: entry.code,
                        page,
                        paged: entry.paged,
                        status: entry.kind == Kind::Status,
                        bytes: first_bytes(alloc, device, first, entry.code, form)?,
                    })?;
                }
            }
        }
        Ok(PlainRegisters {
            device,
            page: 0,
            held,
        })
    }

    /// What a register holds on a page.
    pub fn register(&self, page: u8, code: u8) -> Option<&[u8]> {
        for held in self.held.iter() {
            if held.code == code && held.page == page {
                return Some(held.bytes.as_slice());
            }
        }
        None
    }

    /// Whether a code has registers of its own for pages.
    pub fn is_paged(&self, code: u8) -> bool {
        for held in self.held.iter() {
            if held.code == code && held.paged {
                return true;
            }
        }
        false
    }

    /// What a read of a code gives: on the selected page, or of what is not paged on any.
    pub fn selected(&self, code: u8) -> Option<&[u8]> {
        for held in self.held.iter() {
            if held.code == code && (!held.paged || held.page == self.page) {
                return Some(held.bytes.as_slice());
            }
        }
        None
    }

    /// A complete write of data.
    pub fn write(
        &mut self,
        alloc: Global,
        code: u8,
        zero: bool,
        data: &[u8],
    ) -> Result<(), AllocError> {
        let page = self.page;
        if code == 0x00
            && let Some(selected) = data.first()
        {
            self.page = *selected;
        }
        for held in self.held.as_mut_slice().iter_mut() {
            if held.is_reached(page) {
                held.write(alloc, code, zero, data)?;
            }
        }
        Ok(())
    }

    /// Sets a bit of STATUS_CML, if that can be read.
    pub fn note(&mut self, bit: u8) {
        let readable = match self.device.entry(0x7e) {
            Some(entry) => entry.shape.read.is_some(),
            None => false,
        };
        let page = self.page;
        for held in self.held.as_mut_slice().iter_mut() {
            if readable && held.code == 0x7e && held.is_reached(page) {
                for byte in held.bytes.as_mut_slice().iter_mut() {
                    *byte |= bit;
                }
            }
        }
    }
}
