//! Expressions and their least faults.

/// Operators (C99 6.5).
pub(crate) const EXPRESSIONS: &str = "\
40 rows
void v(void){} int main(void){1@+v(); return 0;} => TypeRule
void v(void){} int main(void){int *p; p@+v(); return 0;} => PointerUse
int main(void){int *p; int *q; p@+q; return 0;} => PointerUse
int main(void){int *p; char *q; p@-q; return 0;} => PointerUse
int main(void){int *p; char *q; p@<q; return 0;} => PointerUse
int main(void){int *p; p@<0; return 0;} => PointerUse
int main(void){int *p; p@==1; return 0;} => PointerUse
int main(void){int *p; int x; p@==x; return 0;} => PointerUse
int main(void){int *p; p@=1; return 0;} => PointerUse
int main(void){int *p; p@=1/0; return 0;} => PointerUse
int main(void){int *p; p@=(1,0); return 0;} => PointerUse
int main(void){int *p; int x; x@=p; return 0;} => PointerUse
int main(void){int *p; p@*2; return 0;} => PointerUse
int main(void){int *p; @~p; return 0;} => PointerUse
void v(void){} int main(void){@!v(); return 0;} => TypeRule
void v(void){} int main(void){@-v(); return 0;} => TypeRule
int main(void){return @*5;} => TypeRule
int main(void){int x; @&x; return 0;} => PointerUse
int main(void){@&5; return 0;} => PointerUse
int main(void){int x; return x@[1];} => TypeRule
int main(void){int a[2]; return a@[a];} => PointerUse
int main(void){int x; return @(int)\"a\"+x;} => PointerUse
int main(void){int *p; p=@(int*)\"a\"; return 0;} => PointerUse
int main(void){@(void*)0; return 0;} => PointerUse
int main(void){int x; @(int*)x; return 0;} => PointerUse
void v(void){} int main(void){return @(int)v();} => TypeRule
void v(void){} int main(void){return v()@?1:2;} => TypeRule
void v(void){} int main(void){1@?v():2; return 0;} => TypeRule
int main(void){int *p; char *q; 1@?p:q; return 0;} => PointerUse
int main(void){5@=3; return 0;} => NotAssignable
void v(void){} int main(void){5@=v(); return 0;} => NotAssignable
int main(void){5@++; return 0;} => NotAssignable
int main(void){@--5; return 0;} => NotAssignable
int main(void){int a[2]; a@=0; return 0;} => NotAssignable
int main(void){int x; (x++)@++; return 0;} => NotAssignable
int main(void){int *p; p@*=2; return 0;} => PointerUse
int main(void){int *p; p@-=p; return 0;} => PointerUse
int main(void){int x; int *p; x@+=p; return 0;} => PointerUse
void v(void){} int main(void){int x; x@=v(); return 0;} => TypeRule
void v(void){} int main(void){int x; x@+=v(); return 0;} => TypeRule";

/// Calls (C99 6.5.2.2).
pub(crate) const CALLS: &str = "\
16 rows
int f(int a){return a;} int main(void){return @f();} => ArgumentCount
int f(int a){return a;} int main(void){return @f(1,2);} => ArgumentCount
int main(void){return @getchar(1);} => ArgumentCount
int main(void){return @putchar();} => ArgumentCount
int x; int main(void){return @x(1);} => TypeRule
int main(void){int *p; return @p(1);} => PointerUse
int x; int main(void){return @x(y);} => TypeRule
int main(void){return @g(y);} => Undeclared
int f(int a){return a;} int main(void){return f(1,@y);} => Undeclared
int f(int a){return a;} int main(void){return @f;} => TypeRule
int f(int a){return a;} int main(void){return f(@f);} => TypeRule
int f(int a){return a;} int main(void){return f(@\"a\");} => PointerUse
int f(char *a){return *a;} int main(void){return f(@1);} => PointerUse
void v(void){} int f(int a){return a;} int main(void){return f(@v());} => TypeRule
int f(int a, int b){return a;} int main(void){return f(1,@\"b\"+0);} => PointerUse
int main(void){int *p; return putchar(@p);} => PointerUse";
